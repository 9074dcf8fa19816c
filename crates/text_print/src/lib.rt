// What the program `sheet_text` does: it reads a sheet and writes its text, whose every byte `typed_text::text_of` tells, or tells on
// standard error what refuses it. That the bytes that come are those handed to `text_of`, and its bytes those that go, is what `print_from` promises.
#![tactic(auto)]

ghost use Rattle.std.specs.Prelude.{◌≡◌};
ghost use Rattle.std.specs.Bool.{OnTrue};
ghost use Rattle.std.specs.Io.KnownBytes.{Appends};
ghost use Rattle.streams.specs.Input.{Passes};
ghost use Rattle.refusals.specs.Refusal.{number_of};
ghost use Rattle.text.specs.Written.{HasRoom, Gained};
ghost use Rattle.typed_text.specs.SheetText.{text_of};
ghost use Rattle.text_print.specs.Stopped.{stopped_text};

use refusals::Refusal;
use std::io::{Read, Stderr, Stdin, Stdout, Write};
use text::Text;
use typed_text::TextError;

// No text is longer: 256 lines of charts, one of weights, 1,024 of queries.
const ROOM: usize = 256 * 28 + 63 + 1024 * sheet_lines::ROOM;

// The line of a row that is stopped.
fn put_stopped(text: &mut Text<'_>, index: usize, refusal: Refusal)
    requires { HasRoom text.old 37 }
    ensures { Gained text.old text.new (stopped_text index (number_of refusal)) }
{
    text.put_bytes(b"row ");
    text.put_number(index as u64);
    text.put_bytes(b": ");
    text.put_decimal(refusal.into());
    text.put_byte(b'\n');
}

// Writes the text of a sheet, or tells why there is none.
fn print_text<O: Write, E: Write>(sheet: &[u8], output: &mut O, errors: &mut E) -> bool
    ensures { OnTrue result (Appends (O.contents output.old) (O.contents output.new) (text_of sheet.now)) }
{
    let mut text = [0u8; ROOM];
    let mut bytes = [0u8; 37];
    let mut line = Text::new(&mut bytes);
    match typed_text::text_of(sheet, &mut text) {
        Ok(end) => {
            let message = b"sheet_text: cannot write the text\n";
            return streams::write_text(output, errors, &text[..end], message);
        }
        Err(TextError::Sheet(refusal)) => line.put_refused(refusal.into()),
        Err(TextError::Row { index, refusal }) => put_stopped(&mut line, index, refusal),
        Err(TextError::Short) => line.put_bytes(b"sheet_text: the text is too long\n"),
    }
    let end = line.len();
    streams::tell(errors, &bytes[..end]);
    false
}

// Writes the text of the sheet that the input gives, and answers whether all was read and written. A sheet that is refused has no text: a failure.
pub fn print_from<R: Read, O: Write, E: Write>(
    input: &mut R,
    output: &mut O,
    errors: &mut E,
) -> bool
    ensures { OnTrue result (Passes 51233 (λ sheet text. text ≡ text_of sheet) (R.remaining input.old) (R.remaining input.new) (O.contents output.old) (O.contents output.new)) }
{
    streams::pass::<{ streams::MOST_OF_SHEET }, R, O, E, _>(
        input,
        output,
        errors,
        b"sheet_text: cannot read the sheet\n",
        print_text,
    )
}

// The program: from standard input.
pub fn run(mut stdin: Stdin, mut stdout: Stdout, mut stderr: Stderr) -> bool {
    print_from(&mut stdin, &mut stdout, &mut stderr)
}
