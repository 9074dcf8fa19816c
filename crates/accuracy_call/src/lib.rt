// `accuracy` with its parts as numbers.
#![tactic(auto)]

ghost use Rattle.std.specs.Prelude.{◌≡◌};
ghost use Rattle.score_state.specs.Answer.{status_of};
ghost use Rattle.score_state.specs.Lent.{six_counts};
ghost use Rattle.score_state.specs.Accuracy.{accuracy_answer};
ghost use Rattle.accuracy_call.specs.Value.{value_or};

use score_state::HitResults;

// 0 with the accuracy behind value, or 10.
pub fn accuracy(
    n320: u32,
    n300: u32,
    n200: u32,
    n100: u32,
    n50: u32,
    misses: u32,
    classic: bool,
    value: &mut f64,
) -> u32
    ensures value { result ≡ status_of (accuracy_answer (six_counts n320 n300 n200 n100 n50 misses) classic) }
    ensures value_after { value.new ≡ value_or (accuracy_answer (six_counts n320 n300 n200 n100 n50 misses) classic) value.old }
{
    let counts = HitResults {
        n320,
        n300,
        n200,
        n100,
        n50,
        misses,
    };
    match score_state::accuracy(counts, classic) {
        Ok(x) => {
            *value = x;
            0
        }
        Err(refusal) => refusal.into(),
    }
}
