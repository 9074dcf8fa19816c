// Nearest (document 01), steps 1 and 2: the fold of the classic pair, the heaviest and the lightest missing weight, and the middles
// between them with their strides.
#![tactic(auto)]

ghost use Rattle.std.specs.Prelude.{All, fold, ◌≡◌, cond, eqb, ℕ, ◌<◌};
ghost use Rattle.score_state.specs.Points.{weights_of};
ghost use Rattle.score_state.specs.Given.{missing};
ghost use Rattle.score_state.specs.declared.HitResults as Counts;
ghost use Rattle.inspect.specs.Presence.{has, given, givens_of};
ghost use Rattle.nearest_laws.specs.Walk as Walk;
ghost use Rattle.nearest_laws.specs.Places.{slot_of};
ghost use Rattle.stride_rows.specs.Strides.{first_of, strides_of, pattern_of};
ghost use Rattle.walk.specs.Code.{middle_of};
ghost use Rattle.plan.specs.Planned.{folded_of, Planned};

use inspect::Missing;
use score_state::Weights;
use units::Points;
use walk::{Middle, Plan};

// Euclid's greatest common divisor. A `while`, since the turns are not counted.
fn gcd(x: u32, y: u32) -> u32
    ensures { result ≡ Walk.gcd x y }
{
    let mut p = x;
    let mut q = y;
    while q != 0 {
        let r = p % q;
        p = q;
        q = r;
    }
    p
}

// q of the middle b.
fn stride(a: u32, c: u32, b: u32) -> u32
    requires { (c < b) × (b < a) }
    ensures { result ≡ Walk.stride a c b }
{
    let w = a - c;
    w / gcd(w, b - c)
}

// Step 1: where n320 and n300 weigh the same and both are missing, n300 counts as given.
#[tactic(auto, unfolding(crate::specs::Planned::folded_of))]
pub fn folded(weights: Weights, presence: u8) -> u8
    ensures { result ≡ folded_of weights presence }
{
    let folds = !inspect::is_given(presence, inspect::N320)
        && !inspect::is_given(presence, inspect::N300)
        && weights.n320 == weights.n300;
    if folds {
        presence + inspect::N300
    } else {
        presence
    }
}

// The weight of the last of these judgements that is missing, 0 where none is. A judgement is its place value and its weight.
fn last_missing(presence: u8, judgements: [(u8, u32); 5]) -> u32
    requires { All (λ j. 0 < j.0) judgements }
    ensures { result ≡ fold (λ w j. cond (has presence j.0) w j.1) 0 judgements }
{
    judgements
        .iter()
        .fold(0, |found, j| inspect::pick(presence, j.0, j.1, found))
}

// The heaviest missing weight, 0 where none is missing.
fn heaviest(weights: Weights, presence: u8) -> u32
    ensures { (g : Counts.HitResults) → result ≡ first_of 0 (missing (weights_of weights) (givens_of presence g)) }
{
    let from_lightest = [
        (inspect::N50, weights.n50),
        (inspect::N100, weights.n100),
        (inspect::N200, weights.n200),
        (inspect::N300, weights.n300),
        (inspect::N320, weights.n320),
    ];
    last_missing(presence, from_lightest)
}

// The lightest missing weight, 0 where none is missing.
fn lightest(weights: Weights, presence: u8) -> u32
    ensures { (g : Counts.HitResults) → result ≡ Walk.last_of 0 (missing (weights_of weights) (givens_of presence g)) }
{
    let from_heaviest = [
        (inspect::N320, weights.n320),
        (inspect::N300, weights.n300),
        (inspect::N200, weights.n200),
        (inspect::N100, weights.n100),
        (inspect::N50, weights.n50),
    ];
    last_missing(presence, from_heaviest)
}

// The stride at a place: q where its count is missing and its weight lies between a and c, 1 elsewhere.
#[tactic(auto, unfolding(nearest_laws::specs::Places::slot_of))]
fn stride_at(presence: u8, place: u8, weight: u32, a: u32, c: u32) -> u32
    requires { 0 < place }
    ensures { (n : ℕ) → result ≡ (slot_of a c weight (given (has presence place) n)).q }
{
    if !inspect::is_given(presence, place) && weight < a && c < weight {
        stride(a, c, weight)
    } else {
        1
    }
}

// The strides of any weights, by the formula. presence is the query's, before step 1.
pub fn by_formula(weights: Weights, presence: u8) -> [u32; 5]
    ensures { result ≡ strides_of (weights_of weights) (pattern_of presence) }
{
    let p = folded(weights, presence);
    let a = heaviest(weights, p);
    let c = lightest(weights, p);
    [
        stride_at(p, inspect::N320, weights.n320, a, c),
        stride_at(p, inspect::N300, weights.n300, a, c),
        stride_at(p, inspect::N200, weights.n200, a, c),
        stride_at(p, inspect::N100, weights.n100, a, c),
        stride_at(p, inspect::N50, weights.n50, a, c),
    ]
}

// The strides: a row of the table for the two standard weightings, by the formula for all others. presence is the query's, before
// step 1.
fn strides_of(weights: Weights, presence: u8) -> [u32; 5]
    ensures { result ≡ strides_of (weights_of weights) (pattern_of presence) }
{
    if weights == score_state::standard_weights(false) {
        return stride_rows::stride_row(false, presence);
    }
    if weights == score_state::standard_weights(true) {
        return stride_rows::stride_row(true, presence);
    }
    by_formula(weights, presence)
}

// The strides of a walk, with the presence before and after step 1. A middle lies between two others: with fewer than three missing
// there is none, and no row is read.
fn walked_strides(weights: Weights, presence: u8, after: u8) -> [u32; 5]
    requires { after ≡ folded_of weights presence }
    ensures { result ≡ strides_of (weights_of weights) (pattern_of presence) }
{
    match inspect::missing_of(after) {
        Missing::ThreePlus => strides_of(weights, presence),
        _ => [1, 1, 1, 1, 1],
    }
}

// What is walked at a place with this stride: its weight, or 0 where the stride is 1, since no middle has a stride of 1.
fn middle(weight: u32, q: u32) -> Middle
    ensures { middle_of result ≡ record { weight = cond (eqb q 1) 0 weight; q = q } }
{
    Middle {
        weight: if q == 1 { 0 } else { weight },
        q,
    }
}

// The plan of the walk for the judgements that are missing after step 1. presence is the query's.
pub fn plan_of(weights: Weights, presence: u8, target: Points) -> Plan
    ensures { Planned weights (folded_of weights presence) target result }
{
    let p = folded(weights, presence);
    let a = heaviest(weights, p);
    let c = lightest(weights, p);
    let strides = walked_strides(weights, presence, p);
    Plan {
        a,
        c,
        n300: middle(weights.n300, strides[1]),
        n200: middle(weights.n200, strides[2]),
        n100: middle(weights.n100, strides[3]),
        target,
    }
}
