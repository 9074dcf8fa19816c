// The sheet of a text, told in numbers, for C.
#![tactic(auto)]

ghost use Rattle.std.specs.Prelude.{◌≡◌, ◌∷◌, ◌≤◌, length, drop};
ghost use Rattle.typed_call.specs.Told.{lent_by, sheet_told};

use typed_sheet::TypedError;

// A number in front of those that stood there.
pub fn tell_one(told: &mut [u64], a: usize)
    requires { 1 ≤ length told.old }
    ensures { told.new ≡ a ∷ drop 1 told.old }
{
    told[0] = a as u64;
}

// Three of them.
fn tell_three(told: &mut [u64], a: usize, b: usize, c: usize)
    requires { 3 ≤ length told.old }
    ensures { told.new ≡ a ∷ b ∷ c ∷ drop 3 told.old }
{
    told[0] = a as u64;
    told[1] = b as u64;
    told[2] = c as u64;
}

// 0 with the sheet in out and its length in told; or a fault's number, with its line, where its word starts and the word's length; or 15: out is too
// short, or told has fewer than three places, which is asked first.
pub fn sheet_of(text: &[u8], out: &mut [u8], told: &mut [u64]) -> u32
    ensures { lent_by result out.new told.new ≡ sheet_told text.now out.old told.old }
{
    if told.len() < 3 {
        return 15;
    }
    match typed_sheet::sheet_of(text, out) {
        Ok(n) => {
            tell_one(told, n);
            0
        }
        Err(TypedError::Faulty(f)) => {
            tell_three(told, f.line, f.word.at, f.word.size);
            u32::from(f.fault)
        }
        Err(TypedError::Short) => 15,
    }
}
