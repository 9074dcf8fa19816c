// The trait `HitResultGenerator`, recast: a call for each of the four generators, and the direct call, which takes the method as a
// number. No call asks anything of its caller: each refuses by 7, 8, 10 and 11 in that order, then by its method's own numbers.
// They have the standard weights; `methods::scored_by`, for a sheet's rows, takes any (document 02, L4).
#![tactic(auto)]

ghost use Rattle.std.specs.Prelude.{◌≡◌};
ghost use Rattle.generate_laws.specs.Generate.{answer_by, generate_answer};
ghost use Rattle.generated.specs.Generated.{generated_of};

use generated::Generated;
use inspect::Query;
use refusals::Refusal;

// A method under the standard weights.
fn by_method(q: Query, method: u8) -> Result<Generated, Refusal>
    ensures { generated_of result ≡ answer_by method q }
{
    methods::scored_by(q, method, score_state::standard_weights(q.classic))
}

// Method 0, IgnoreAccuracy.
pub fn by_ignore_acc(q: Query) -> Result<Generated, Refusal>
    ensures { generated_of result ≡ answer_by 0 q }
{
    by_method(q, 0)
}

// Method 1, Fast: without an accuracy it is method 0.
pub fn by_fast(q: Query) -> Result<Generated, Refusal>
    ensures { generated_of result ≡ answer_by 1 q }
{
    by_method(q, 1)
}

// Method 2, Closest: without an accuracy it is method 0; 12 where the Rust overflows.
pub fn by_closest(q: Query) -> Result<Generated, Refusal>
    ensures { generated_of result ≡ answer_by 2 q }
{
    by_method(q, 2)
}

// Method 3, Nearest: 13 without an accuracy, 14 where no split exists.
pub fn by_nearest(q: Query) -> Result<Generated, Refusal>
    ensures { generated_of result ≡ answer_by 3 q }
{
    by_method(q, 3)
}

// The direct call: the query's method is 0 IgnoreAccuracy, 1 Fast, 2 Closest or 3 Nearest.
pub fn generate(q: Query) -> Result<Generated, Refusal>
    ensures { generated_of result ≡ generate_answer q }
{
    by_method(q, q.method)
}
