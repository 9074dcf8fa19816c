// What the program `strides` does: it reads ten weights and writes what `stride_text::print_strides` makes of them, whose contract says
// every byte. That the bytes that come are those handed to `print_strides`, and its bytes those that go, is what `print_from` promises.
#![tactic(auto)]

ghost use Rattle.std.specs.Prelude.{◌≡◌};
ghost use Rattle.std.specs.Bool.{OnTrue};
ghost use Rattle.std.specs.Io.KnownBytes.{Appends};
ghost use Rattle.streams.specs.Input.{Passes};
ghost use Rattle.stride_text.specs.StrideText.{printed_strides};

use std::io::{Read, Stderr, Stdin, Stdout, Write};

// The most that is read: ten weights, 40 bytes, and one byte more, which shows that there are more.
const MOST_READ: usize = 41;

// Prints the table of these weights, and answers whether all was written. Stays beside that of sheet_print, which says why.
fn print_table<O: Write, E: Write>(weights: &[u8], output: &mut O, errors: &mut E) -> bool
    ensures { OnTrue result (Appends (O.contents output.old) (O.contents output.new) (printed_strides weights.now)) }
{
    let mut text = [0u8; stride_text::ROOM];
    let end = stride_text::print_strides(weights, &mut text);
    streams::write_text(
        output,
        errors,
        &text[..end],
        b"strides: cannot write the table\n",
    )
}

// Prints the table of the weights that the input gives, and answers whether all was read and written. A refusal is an answer, and no failure.
pub fn print_from<R: Read, O: Write, E: Write>(
    input: &mut R,
    output: &mut O,
    errors: &mut E,
) -> bool
    ensures { OnTrue result (Passes 41 (λ weights text. text ≡ printed_strides weights) (R.remaining input.old) (R.remaining input.new) (O.contents output.old) (O.contents output.new)) }
{
    streams::pass::<MOST_READ, R, O, E, _>(
        input,
        output,
        errors,
        b"strides: cannot read the weights\n",
        print_table,
    )
}

// The program: from standard input.
pub fn run(mut stdin: Stdin, mut stdout: Stdout, mut stderr: Stderr) -> bool {
    print_from(&mut stdin, &mut stdout, &mut stderr)
}
