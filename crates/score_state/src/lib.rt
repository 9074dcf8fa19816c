// score_state.rs: the six judgement counts, their points and their accuracy.
#![tactic(auto)]

ghost use Rattle.std.specs.Prelude.{◌≡◌, ◌*◌, ◌≤◌};
ghost use Rattle.units.specs.Limits.{most_weight};
ghost use Rattle.score_state.specs.Points.{standard, points, weights_of, counts_of, total_hits, perfect_weight, Light};
ghost use Rattle.score_state.specs.Answer.{answer_of};
ghost use Rattle.score_state.specs.Accuracy.{accuracy_of, accuracy_answer, cap, over_cap, Capped};

use refusals::Refusal;
use units::{Hits, Points};

// The largest count that is let through.
pub const CAP: u32 = 1_000_000;

// The six judgement counts: `ManiaHitResults`.
#[derive(Clone, Copy, Default, PartialEq, Eq)]
pub struct HitResults {
    pub n320: u32,
    pub n300: u32,
    pub n200: u32,
    pub n100: u32,
    pub n50: u32,
    pub misses: u32,
}

impl HitResults {
    // Six numbers of hits.
    pub fn of(n320: Hits, n300: Hits, n200: Hits, n100: Hits, n50: Hits, misses: Hits) -> HitResults
        ensures { result ≡ record { n320 = n320.0; n300 = n300.0; n200 = n200.0; n100 = n100.0; n50 = n50.0; misses = misses.0 } }
    {
        HitResults {
            n320: n320.0,
            n300: n300.0,
            n200: n200.0,
            n100: n100.0,
            n50: n50.0,
            misses: misses.0,
        }
    }
}

// The weights of the five judgements; a miss weighs 0.
#[derive(Clone, Copy, PartialEq, Eq)]
pub struct Weights {
    pub n320: u32,
    pub n300: u32,
    pub n200: u32,
    pub n100: u32,
    pub n50: u32,
}

// The weight of n320.
pub fn perfect_weight(classic: bool) -> u32
    ensures { (result ≡ perfect_weight classic) × (result ≤ 61) }
{
    if classic { 60 } else { 61 }
}

// The two standard weightings.
pub fn standard_weights(classic: bool) -> Weights
    ensures { (weights_of result ≡ standard classic) × Light result }
{
    let w = perfect_weight(classic);
    Weights {
        n320: w,
        n300: 60,
        n200: 40,
        n100: 20,
        n50: 10,
    }
}

// All six counts together.
pub fn total_hits(counts: HitResults) -> Hits
    requires { Capped counts }
    ensures { result.0 ≡ total_hits counts }
{
    Hits(counts.n320 + counts.n300 + counts.n200 + counts.n100 + counts.n50 + counts.misses)
}

// A count times its weight.
fn times(weight: u32, count: u32) -> u32
    requires { (weight ≤ most_weight) × (count ≤ cap) }
    ensures { (result ≡ weight * count) × (result ≤ most_weight * cap) }
{
    weight * count
}

// The sum of count times weight.
pub fn points_of(weights: Weights, counts: HitResults) -> Points
    requires fact_1 { Light weights }
    requires fact_2 { Capped counts }
    ensures { result.0 ≡ points (weights_of weights) (counts_of counts) }
{
    let a = times(weights.n320, counts.n320);
    let b = times(weights.n300, counts.n300);
    let c = times(weights.n200, counts.n200);
    let d = times(weights.n100, counts.n100);
    let e = times(weights.n50, counts.n50);
    Points(a + b + c + d + e)
}

// `ManiaHitResults::accuracy`, of counts that are within the cap.
pub fn accuracy_of(counts: HitResults, classic: bool) -> f64
    requires { Capped counts }
    ensures { result ≡ accuracy_of counts classic }
{
    let total = total_hits(counts);
    if total == Hits(0) {
        return 0.0;
    }
    let weights = standard_weights(classic);
    let numerator = points_of(weights, counts);
    let denominator = total * perfect_weight(classic);
    numerator.ratio(denominator)
}

// Whether a count is over the cap.
#[tactic(auto, unfolding(crate::specs::Accuracy::over_cap))]
fn over_cap(counts: HitResults) -> bool
    ensures { result ≡ over_cap counts }
{
    counts.n320 > CAP
        || counts.n300 > CAP
        || counts.n200 > CAP
        || counts.n100 > CAP
        || counts.n50 > CAP
        || counts.misses > CAP
}

// The accuracy of six counts, refused by 10 where one is over 1,000,000.
pub fn accuracy(counts: HitResults, classic: bool) -> Result<f64, Refusal>
    ensures { answer_of result ≡ accuracy_answer counts classic }
{
    if over_cap(counts) {
        return Err(Refusal::CountOver);
    }
    Ok(accuracy_of(counts, classic))
}
