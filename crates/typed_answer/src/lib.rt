// What a typed sheet gives, as bytes in lent buffers: the sheet, or what is printed of it; or how its first fault is told.
#![tactic(auto)]

ghost use Rattle.typed_answer.specs.Answers.{sheet_answer, table_answer, Makes};

use typed_sheet::TypedError;

// A full sheet with own weights.
pub const SHEET_ROOM: usize = 4 + 256 * 8 + 4 + 5 * 4 + 4 + 1024 * 48;

// The text has a fault: so many bytes at the start of the second buffer tell it.
#[derive(Clone, Copy, PartialEq, Eq, Debug)]
pub struct Told(pub usize);

// The sheet of a text, or the message of its first fault; it answers how many bytes at the start of the first buffer the sheet is.
pub fn sheet_or_fault(
    text: &[u8],
    sheet: &mut [u8; SHEET_ROOM],
    message: &mut [u8; fault_text::ROOM],
) -> Result<usize, Told>
    ensures { Makes (sheet_answer text.now) result sheet.new message.new }
{
    match typed_sheet::sheet_of(text, sheet) {
        Ok(n) => Ok(n),
        Err(TypedError::Faulty(f)) => {
            let end = f.word.at + f.word.size;
            let word = &text[f.word.at..end];
            let number = u32::from(f.fault);
            Err(Told(fault_text::tell_fault(f.line, number, word, message)))
        }
        // It never is: no sheet of a text is longer than the room.
        Err(TypedError::Short) => Err(Told(0)),
    }
}

// What is printed of the sheet of a text, or the message of its first fault.
pub fn table_or_fault(
    text: &[u8],
    table: &mut [u8; table::ROOM],
    message: &mut [u8; fault_text::ROOM],
) -> Result<usize, Told>
    ensures { Makes (table_answer text.now) result table.new message.new }
{
    let mut sheet = [0u8; SHEET_ROOM];
    // No `?`: the edit message_printed plants in the answer of a fault (docs/LOOK-BACK.md).
    match sheet_or_fault(text, &mut sheet, message) {
        Ok(n) => Ok(table::print_sheet(&sheet[..n], table)),
        Err(told) => Err(told),
    }
}
