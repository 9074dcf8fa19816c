// The direct call with its parts as numbers, which C and the rows of a sheet share: no struct is handed over on the way.
#![tactic(auto)]

ghost use Rattle.std.specs.Prelude.{◌≡◌, ◌≤◌, cond, ltb, length, take};
ghost use Rattle.score_state.specs.Answer.{answer_in, answer_of, status_of};
ghost use Rattle.score_state.specs.Lent.{six_counts, lent, handed};
ghost use Rattle.score_state.specs.Points.{standard, weights_of};
ghost use Rattle.inspect.specs.Inspect.{acc_by};
ghost use Rattle.inspect.specs.Presence.{has};
ghost use Rattle.nearest_laws.specs.Nearest.{Weighting};
ghost use Rattle.generate_laws.specs.Generate.{scored_answer, generate_answer};
ghost use Rattle.generated.specs.Generated.{generated_of};
ghost use Rattle.direct.specs.Direct.{kind_by, numbers_by, classic_in, weights_in, query_by};

use generated::Generated;
use inspect::{Accuracy, Chart, Query};
use refusals::Refusal;
use score_state::Weights;
use weighting::Scoring;

// The accuracy where its bit of presence is set.
fn acc_of(presence: u8, acc: f64) -> Accuracy
    ensures { result ≡ acc_by (has presence 64) acc }
{
    inspect::acc_by(inspect::is_given(presence, inspect::ACC), acc)
}

// An answer's values to the output, which has room for them.
fn hand(answer: Result<Generated, Refusal>, out: &mut [u32]) -> Result<(), Refusal>
    requires { 8 ≤ length out.old }
    ensures out_after { lent (status_of (answer_of result)) out.new ≡ handed 8 (generated_of answer) out.old }
    ensures out_after_2 { answer_in (status_of (answer_of result)) (take 8 out.new) ≡ generated_of answer }
{
    let g = answer?;
    let c = g.counts;
    let left = points_left::bits_of(g.left);
    let eight = [
        c.n320, c.n300, c.n200, c.n100, c.n50, c.misses, g.tried, left,
    ];
    out[..8].copy_from_slice(&eight);
    Ok(())
}

// How a row hands over its sheet's weights: with its classic flag in one number, and in front of the numbers where its answer will
// stand. As an argument more they would have C's call lay out all of its own anew.
pub fn kind_of(scoring: Scoring, classic: bool) -> u8
    ensures { result ≡ kind_by scoring classic }
{
    match scoring {
        Scoring::Standard => if classic { 1 } else { 0 },
        Scoring::Own(_) => if classic { 3 } else { 2 },
    }
}

// Own weights from n320 to n50, and 0 elsewhere.
pub fn numbers_of(scoring: Scoring) -> [u32; 8]
    ensures { result ≡ numbers_by scoring }
{
    match scoring {
        Scoring::Standard => [0u32; 8],
        Scoring::Own(w) => [w.n320, w.n300, w.n200, w.n100, w.n50, 0, 0, 0],
    }
}

// The weights of this kind, own being those that the output holds.
fn weights_of(kind: u8, own: Weights) -> Weights
    ensures { weights_of result ≡ cond (ltb kind 2) (standard (classic_in kind)) (weights_of own) }
{
    if kind < 2 {
        return score_state::standard_weights(kind % 2 == 1);
    }
    own
}

// The five counts, misses, tried and the bits of left in out, or what refuses: 5 where out has no room for them. kind
// tells the classic flag and the weights (`kind_of`); own weights stand in out on entry, where the counts will stand.
pub fn scored(
    objects: u32,
    holds: u32,
    method: u8,
    priority: u8,
    kind: u8,
    presence: u8,
    n320: u32,
    n300: u32,
    n200: u32,
    n100: u32,
    n50: u32,
    misses: u32,
    passed: u32,
    holds_given: u8,
    holds_passed: u32,
    acc: f64,
    out: &mut [u32],
) -> Result<(), Refusal>
    requires { Weighting (weights_in kind out.old) }
    ensures out_after { lent (status_of (answer_of result)) out.new ≡ handed 8 (scored_answer (weights_in kind out.old) (query_by objects holds method priority (classic_in kind) presence (six_counts n320 n300 n200 n100 n50 misses) passed holds_given holds_passed acc)) out.old }
    ensures out_after_2 { 8 ≤ length out.old → answer_in (status_of (answer_of result)) (take 8 out.new) ≡ scored_answer (weights_in kind out.old) (query_by objects holds method priority (classic_in kind) presence (six_counts n320 n300 n200 n100 n50 misses) passed holds_given holds_passed acc) }
{
    if out.len() < 8 {
        return Err(Refusal::Short);
    }
    let own = Weights {
        n320: out[0],
        n300: out[1],
        n200: out[2],
        n100: out[3],
        n50: out[4],
    };
    let weights = weights_of(kind, own);
    let accuracy = acc_of(presence, acc);
    let reached = inspect::holds_of(holds_given, holds_passed);
    let q = Query {
        chart: Chart {
            n_objects: objects,
            n_hold_notes: holds,
        },
        method,
        priority,
        classic: kind % 2 == 1,
        presence,
        n320,
        n300,
        n200,
        n100,
        n50,
        misses,
        passed,
        holds: reached,
        acc: accuracy,
    };
    hand(methods::scored_by(q, method, weights), out)
}

// The same under the standard weights, which a direct call keeps.
pub fn generate(
    objects: u32,
    holds: u32,
    method: u8,
    priority: u8,
    classic: bool,
    presence: u8,
    n320: u32,
    n300: u32,
    n200: u32,
    n100: u32,
    n50: u32,
    misses: u32,
    passed: u32,
    holds_given: u8,
    holds_passed: u32,
    acc: f64,
    out: &mut [u32],
) -> u32
    ensures { lent result out.new ≡ handed 8 (generate_answer (query_by objects holds method priority classic presence (six_counts n320 n300 n200 n100 n50 misses) passed holds_given holds_passed acc)) out.old }
{
    match scored(
        objects,
        holds,
        method,
        priority,
        kind_of(Scoring::Standard, classic),
        presence,
        n320,
        n300,
        n200,
        n100,
        n50,
        misses,
        passed,
        holds_given,
        holds_passed,
        acc,
        out,
    ) {
        Ok(()) => 0,
        Err(refusal) => refusal.into(),
    }
}
