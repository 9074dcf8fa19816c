// One query by its method: the checks that every method shares, then the generator of the method under any weights.
#![tactic(auto)]

ghost use Rattle.std.specs.Prelude.{◌≡◌, ◌<◌};
ghost use Rattle.std.proofs.Math.Option.{some};
ghost use Rattle.score_state.specs.Points.{weights_of};
ghost use Rattle.inspect.specs.Inspect.{inspect_of, acc_of};
ghost use Rattle.inspect.specs.Checks.{Domain};
ghost use Rattle.nearest_laws.specs.Nearest.{Weighting};
ghost use Rattle.generate_laws.specs.Generate.{untried, nearest_of, by_method, scored_by};
ghost use Rattle.closest_f64.specs.Rust.{closest_at_f64};
ghost use Rattle.generated.specs.Generated.{generated_of};
ghost use Rattle.methods.specs.Code.{ignores_acc};

use generated::Generated;
use inspect::{Accuracy, Query};
use nearest::Five;
use refusals::Refusal;
use rounding::Acc;
use score_state::{HitResults, Weights};
use units::Hits;

// Closest at a given accuracy: the Rust's own steps by its contract.
fn closest_counts(q: Query, acc: Acc) -> Result<Generated, Refusal>
    requires { Domain q }
    ensures { generated_of result ≡ untried (closest_at_f64 (inspect_of q) acc.value) }
{
    let counts = closest::generate_hitresults(q, acc)?;
    Ok(counts.into())
}

// Nearest at a given accuracy, under these weights; that of n320 is w.
fn nearest_counts(q: Query, acc: Acc, weights: Weights) -> Result<Generated, Refusal>
    requires domain { Domain q }
    requires weighting { Weighting (weights_of weights) }
    ensures { generated_of result ≡ nearest_of (weights_of weights) (inspect_of q) (some acc.value) }
{
    let total = inspect::total_hits(q);
    let missed = inspect::misses(q);
    let remain = inspect::remain(q);
    let target = inspect::target_of(acc, weights.n320, total);
    let given = Five {
        n320: Hits(q.n320),
        n300: Hits(q.n300),
        n200: Hits(q.n200),
        n100: Hits(q.n100),
        n50: Hits(q.n50),
    };
    let split = nearest::nearest(weights, q.presence, given, remain, target)?;
    let five = split.counts;
    let counts = HitResults::of(five.n320, five.n300, five.n200, five.n100, five.n50, missed);
    let points = score_state::points_of(weights, counts);
    Ok(Generated {
        counts,
        tried: split.tried,
        left: points_left::left_of(target, points),
    })
}

// Methods 1 to 3 at the query's accuracy. The method stays a number, as a direct call takes it (document 01, Where a row or sheet stops):
// check 8 is of that number, and comes behind check 7.
fn at_acc(q: Query, method: u8, acc: Acc, weights: Weights) -> Result<Generated, Refusal>
    requires domain { Domain q }
    requires method_nonzero { (0 < method) × ((inspect_of q).acc ≡ some acc.value) }
    requires weighting { Weighting (weights_of weights) }
    ensures { generated_of result ≡ by_method (weights_of weights) method (inspect_of q) }
{
    match method {
        1 => Ok(fast::generate_hitresults(q, acc).into()),
        2 => closest_counts(q, acc),
        _ => nearest_counts(q, acc, weights),
    }
}

// Whether the counts are IgnoreAccuracy's: by method 0, and without an accuracy by methods 1 and 2.
fn ignores_acc(method: u8, acc: Accuracy) -> bool
    ensures { result ≡ ignores_acc method (acc_of acc) }
{
    match acc {
        Accuracy::Given(_) => method == 0,
        Accuracy::Absent => method < 3,
    }
}

// The checks that every method shares, then a method, whatever the query's own, under these weights, at which Nearest alone looks. Each
// generator is called in one place: so the compiler builds them into one function, in which the query is never copied.
pub fn scored_by(q: Query, method: u8, weights: Weights) -> Result<Generated, Refusal>
    requires { Weighting (weights_of weights) }
    ensures { generated_of result ≡ scored_by (weights_of weights) method q }
{
    inspect::check(q)?;
    if ignores_acc(method, q.acc) {
        return Ok(ignore_acc::generate_hitresults(q).into());
    }
    let Accuracy::Given(acc) = q.acc else {
        return Err(Refusal::AccMissing);
    };
    at_acc(q, method, Acc { value: acc }, weights)
}
