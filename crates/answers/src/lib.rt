// The 36 bytes of a row's answer.
#![tactic(auto)]

ghost use Rattle.std.specs.Prelude.{◌≡◌, [], ◌∷◌, ◌+◌, ◌≤◌, length};
ghost use Rattle.lists.specs.Lists.{put};
ghost use Rattle.generated.specs.Generated.{generated_of};
ghost use Rattle.answers.specs.Answers.{field_bytes, answer_bytes};

use generated::Generated;
use refusals::Refusal;
use score_state::HitResults;

// The nine fields of an answer, side by side, left by its bits.
fn put_fields(out: &mut [u8], at: usize, status: u32, c: HitResults, tried: u32, left: u32)
    requires { at + 36 ≤ length out.old }
    ensures { out.new ≡ put out.old at (field_bytes status (c.n320 ∷ c.n300 ∷ c.n200 ∷ c.n100 ∷ c.n50 ∷ c.misses ∷ tried ∷ left ∷ [])) }
{
    little_endian::put_u32(out, at, status);
    little_endian::put_u32(out, at + 4, c.n320);
    little_endian::put_u32(out, at + 8, c.n300);
    little_endian::put_u32(out, at + 12, c.n200);
    little_endian::put_u32(out, at + 16, c.n100);
    little_endian::put_u32(out, at + 20, c.n50);
    little_endian::put_u32(out, at + 24, c.misses);
    little_endian::put_u32(out, at + 28, tried);
    little_endian::put_u32(out, at + 32, left);
}

// The 36 bytes of an answer: of a refusal its number, and zeros.
pub fn put_answer(out: &mut [u8], at: usize, answer: Result<Generated, Refusal>)
    requires { at + 36 ≤ length out.old }
    ensures { out.new ≡ put out.old at (answer_bytes (generated_of answer)) }
{
    match answer {
        Ok(g) => put_fields(out, at, 0, g.counts, g.tried, points_left::bits_of(g.left)),
        Err(refusal) => put_fields(out, at, refusal.into(), HitResults::default(), 0, 0),
    }
}
