// What the program `sheet` does: it reads a sheet and writes what `table::print_sheet` makes of it, whose contract says every byte. That
// the bytes that come are those handed to `print_sheet`, and its bytes those that go, is what `print_from` promises.
#![tactic(auto)]

ghost use Rattle.std.specs.Prelude.{◌≡◌};
ghost use Rattle.std.specs.Bool.{OnTrue};
ghost use Rattle.std.specs.Io.KnownBytes.{Appends};
ghost use Rattle.streams.specs.Input.{Passes};
ghost use Rattle.table.specs.Table.{printed_of};

use std::io::{Read, Stderr, Stdin, Stdout, Write};

// Prints a sheet, and answers whether all was written. Stays beside that of stride_print: they share one call, and the clauses of a function
// over that call would be longer than both bodies.
fn print_table<O: Write, E: Write>(sheet: &[u8], output: &mut O, errors: &mut E) -> bool
    ensures { OnTrue result (Appends (O.contents output.old) (O.contents output.new) (printed_of sheet.now)) }
{
    let mut text = [0u8; table::ROOM];
    let end = table::print_sheet(sheet, &mut text);
    streams::write_text(
        output,
        errors,
        &text[..end],
        b"sheet: cannot write the table\n",
    )
}

// Prints the sheet that the input gives, and answers whether all was read and written. A refused sheet is an answer, and no failure.
pub fn print_from<R: Read, O: Write, E: Write>(
    input: &mut R,
    output: &mut O,
    errors: &mut E,
) -> bool
    ensures { OnTrue result (Passes 51233 (λ sheet text. text ≡ printed_of sheet) (R.remaining input.old) (R.remaining input.new) (O.contents output.old) (O.contents output.new)) }
{
    streams::pass::<{ streams::MOST_OF_SHEET }, R, O, E, _>(
        input,
        output,
        errors,
        b"sheet: cannot read the sheet\n",
        print_table,
    )
}

// The program: from standard input.
pub fn run(mut stdin: Stdin, mut stdout: Stdout, mut stderr: Stderr) -> bool {
    print_from(&mut stdin, &mut stdout, &mut stderr)
}
