// The text of a sheet, told in numbers, for C.
#![tactic(auto)]

ghost use Rattle.std.specs.Prelude.{◌≡◌};
ghost use Rattle.typed_call.specs.Told.{lent_by};
ghost use Rattle.text_call.specs.TextTold.{text_told};

use refusals::Refusal;
use typed_text::TextError;

// 0 with the text in out and its length in told; or the number of the check that stops the sheet; or 8 or 9 with the index of the row that it stops; or
// 5: out is too short, or told has no place, which is asked first.
pub fn text_of(sheet: &[u8], out: &mut [u8], told: &mut [u64]) -> u32
    ensures { lent_by result out.new told.new ≡ text_told sheet.now out.old told.old }
{
    if told.len() < 1 {
        return u32::from(Refusal::Short);
    }
    match typed_text::text_of(sheet, out) {
        Ok(n) => {
            typed_call::tell_one(told, n);
            0
        }
        Err(TextError::Sheet(refusal)) => u32::from(refusal),
        Err(TextError::Row { index, refusal }) => {
            typed_call::tell_one(told, index);
            u32::from(refusal)
        }
        Err(TextError::Short) => u32::from(Refusal::Short),
    }
}
