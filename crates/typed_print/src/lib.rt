// What the programs `type_sheet` and `typed` do: each reads a text and writes what `typed_answer` makes of it, whose contracts say every byte.
// That the bytes that come are those handed over, and the bytes that are made those that go, is what `make_from` and `print_from` promise.
#![tactic(auto)]

ghost use Rattle.std.specs.Prelude.{List, ℕ, ◌≡◌, ◌≤◌, false, length};
ghost use Rattle.std.specs.Bool.{OnTrue};
ghost use Rattle.std.specs.Io.KnownBytes.{Appends};
ghost use Rattle.streams.specs.Input.{Passes};
ghost use Rattle.typed_answer.specs.Answers.{sheet_answer, table_answer};
ghost use Rattle.typed_answer.specs.Answers.Answer.{made};

use std::io::{Read, Stderr, Stdin, Stdout, Write};
use typed_answer::Told;

// The longest text that is read.
const MOST_TEXT: usize = 262144;

// One byte more, which shows that there are more.
const TEXT_ROOM: usize = MOST_TEXT + 1;

// Whether a text is too long, which is told.
fn is_too_long<E: Write>(text: &[u8], errors: &mut E) -> bool
    ensures { result ≡ false → length text.now ≤ 262144 }
{
    let is_long = MOST_TEXT < text.len();
    if is_long {
        streams::tell(errors, b"the text has over 262144 bytes\n");
    }
    is_long
}

// Writes the sheet of a text, and answers whether it was written; or tells the fault of the text.
fn make_sheet<O: Write, E: Write>(text: &[u8], output: &mut O, errors: &mut E) -> bool
    ensures { OnTrue result ((bytes : List ℕ) × (length text.now ≤ 262144) × (sheet_answer text.now ≡ made bytes) × Appends (O.contents output.old) (O.contents output.new) bytes) }
{
    if is_too_long(text, errors) {
        return false;
    }
    let mut sheet = [0u8; typed_answer::SHEET_ROOM];
    let mut message = [0u8; fault_text::ROOM];
    match typed_answer::sheet_or_fault(text, &mut sheet, &mut message) {
        Ok(end) => streams::write_text(
            output,
            errors,
            &sheet[..end],
            b"type_sheet: cannot write the sheet\n",
        ),
        Err(Told(end)) => {
            streams::tell(errors, &message[..end]);
            false
        }
    }
}

// The same with what is printed of the sheet. Stays beside make_sheet: they share one call, and the clauses of a function over what they call
// would be longer than both bodies.
fn print_table<O: Write, E: Write>(text: &[u8], output: &mut O, errors: &mut E) -> bool
    ensures { OnTrue result ((bytes : List ℕ) × (length text.now ≤ 262144) × (table_answer text.now ≡ made bytes) × Appends (O.contents output.old) (O.contents output.new) bytes) }
{
    if is_too_long(text, errors) {
        return false;
    }
    let mut table = [0u8; table::ROOM];
    let mut message = [0u8; fault_text::ROOM];
    match typed_answer::table_or_fault(text, &mut table, &mut message) {
        Ok(end) => streams::write_text(
            output,
            errors,
            &table[..end],
            b"typed: cannot write the table\n",
        ),
        Err(Told(end)) => {
            streams::tell(errors, &message[..end]);
            false
        }
    }
}

// Writes the sheet of the text that the input gives, and answers whether it was written. Of a text with a fault only that is told, on standard
// error.
pub fn make_from<R: Read, O: Write, E: Write>(input: &mut R, output: &mut O, errors: &mut E) -> bool
    ensures { OnTrue result (Passes 262145 (λ text bytes. (length text ≤ 262144) × (sheet_answer text ≡ made bytes)) (R.remaining input.old) (R.remaining input.new) (O.contents output.old) (O.contents output.new)) }
{
    streams::pass::<TEXT_ROOM, R, O, E, _>(
        input,
        output,
        errors,
        b"type_sheet: cannot read the text\n",
        make_sheet,
    )
}

// The same with what is printed of the sheet.
pub fn print_from<R: Read, O: Write, E: Write>(
    input: &mut R,
    output: &mut O,
    errors: &mut E,
) -> bool
    ensures { OnTrue result (Passes 262145 (λ text bytes. (length text ≤ 262144) × (table_answer text ≡ made bytes)) (R.remaining input.old) (R.remaining input.new) (O.contents output.old) (O.contents output.new)) }
{
    streams::pass::<TEXT_ROOM, R, O, E, _>(
        input,
        output,
        errors,
        b"typed: cannot read the text\n",
        print_table,
    )
}

// The programs: from standard input.
pub fn make(mut stdin: Stdin, mut stdout: Stdout, mut stderr: Stderr) -> bool {
    make_from(&mut stdin, &mut stdout, &mut stderr)
}

pub fn print(mut stdin: Stdin, mut stdout: Stdout, mut stderr: Stderr) -> bool {
    print_from(&mut stdin, &mut stdout, &mut stderr)
}
