// The rounded target of a query, which is filed beside its split.
#![tactic(auto)]

ghost use Rattle.std.specs.Prelude.{◌≡◌};
ghost use Rattle.score_state.specs.Lent.{lent, handed};
ghost use Rattle.rounded_target.specs.Answers.{answer_of, target_answer, target_query};

use inspect::{Accuracy, Chart, Query};
use refusals::Refusal;
use rounding::Acc;
use units::{Hits, Points};

// What is filed beside a split.
#[derive(Clone, Copy)]
pub struct RoundedTarget {
    pub total_hits: Hits,
    pub misses: Hits,
    pub remain: Hits,
    pub target: Points,
}

// The rounded target of a query: refused by 7, 8, 10 and 11, and by 13 without an accuracy.
pub fn rounded_target(q: Query) -> Result<RoundedTarget, Refusal>
    ensures { answer_of result ≡ target_answer q }
{
    inspect::check(q)?;
    let Accuracy::Given(acc) = q.acc else {
        return Err(Refusal::AccMissing);
    };
    let total_hits = inspect::total_hits(q);
    let w = score_state::perfect_weight(q.classic);
    Ok(RoundedTarget {
        total_hits,
        misses: inspect::misses(q),
        remain: inspect::remain(q),
        target: inspect::target_of(Acc { value: acc }, w, total_hits),
    })
}

// The query of `target_numbers`: no count is given but misses, passed and the holds passed.
fn target_query(
    objects: u32,
    holds: u32,
    classic: bool,
    presence: u8,
    misses: u32,
    passed: u32,
    holds_given: u8,
    holds_passed: u32,
    acc: f64,
) -> Query
    ensures { result ≡ target_query objects holds classic presence misses passed holds_given holds_passed acc }
{
    Query {
        chart: Chart {
            n_objects: objects,
            n_hold_notes: holds,
        },
        method: 0,
        priority: 0,
        classic,
        presence: presence / 32 * 32,
        n320: 0,
        n300: 0,
        n200: 0,
        n100: 0,
        n50: 0,
        misses,
        passed,
        holds: inspect::holds_of(holds_given, holds_passed),
        acc: Accuracy::Given(acc),
    }
}

// The same with its parts as numbers: 0 with total hits, misses, remain and the rounded target in out, or the number that refuses.
pub fn target_numbers(
    objects: u32,
    holds: u32,
    classic: bool,
    presence: u8,
    misses: u32,
    passed: u32,
    holds_given: u8,
    holds_passed: u32,
    acc: f64,
    out: &mut [u32],
) -> u32
    ensures { lent result out.new ≡ handed 4 (target_answer (target_query objects holds classic presence misses passed holds_given holds_passed acc)) out.old }
{
    if out.len() < 4 {
        return Refusal::Short.into();
    }
    let q = target_query(
        objects,
        holds,
        classic,
        presence,
        misses,
        passed,
        holds_given,
        holds_passed,
        acc,
    );
    match rounded_target(q) {
        Ok(t) => {
            let four = [t.total_hits.0, t.misses.0, t.remain.0, t.target.0];
            out[..4].copy_from_slice(&four);
            0
        }
        Err(refusal) => refusal.into(),
    }
}
