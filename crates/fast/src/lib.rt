// fast.rs: the given counts clamped, and the missing ones filled greedily towards the accuracy.
#![tactic(auto)]

ghost use Rattle.std.specs.Prelude.{◌≡◌, ◌+◌, ◌≤◌, ◌<◌};
ghost use Rattle.units.specs.Limits.{most_hits, most_points};
ghost use Rattle.score_state.specs.Given.{option_of};
ghost use Rattle.score_state.specs.Points.{perfect_weight};
ghost use Rattle.inspect.specs.Inspect.{inspect_of};
ghost use Rattle.inspect.specs.Checks.{Domain};
ghost use Rattle.fast.specs.Fast as Fast;
ghost use Rattle.fast.specs.Fast.{if_none, clamped, left_place, plus_left};

use inspect::{Missing, N50, N100, N200, N300, N320, Query};
use rounding::Acc;
use score_state::HitResults;
use units::{Hits, Points};

// A query's five counts, where they are given.
#[derive(Clone, Copy)]
struct Given {
    n320: Option<u32>,
    n300: Option<u32>,
    n200: Option<u32>,
    n100: Option<u32>,
    n50: Option<u32>,
}

impl Given {
    // The Rust's `inspect.n320` to `inspect.n50`.
    fn of(q: Query) -> Given
        ensures n320 { option_of result.n320 ≡ (inspect_of q).n320 }
        ensures n300 { option_of result.n300 ≡ (inspect_of q).n300 }
        ensures n200 { option_of result.n200 ≡ (inspect_of q).n200 }
        ensures n100 { option_of result.n100 ≡ (inspect_of q).n100 }
        ensures n50 { option_of result.n50 ≡ (inspect_of q).n50 }
    {
        Given {
            n320: inspect::given(q.presence, N320, q.n320),
            n300: inspect::given(q.presence, N300, q.n300),
            n200: inspect::given(q.presence, N200, q.n200),
            n100: inspect::given(q.presence, N100, q.n100),
            n50: inspect::given(q.presence, N50, q.n50),
        }
    }
}

// Counts, and the hits that they leave.
#[derive(Clone, Copy)]
struct Partial {
    counts: HitResults,
    left: Hits,
    ghost fits: { counts.n320 + counts.n300 + counts.n200 + counts.n100 + counts.n50 + left.0 + counts.misses ≤ most_hits },
}

// The running `delta`, the hits that no count takes, and the count that was taken last.
#[derive(Clone, Copy)]
struct Running {
    delta: Points,
    left: Hits,
    count: Hits,
}

// `if n.is_none() { a } else { b }`
#[tactic(auto, unfolding(crate::specs::Fast::if_none))]
fn if_none(n: Option<u32>, a: Hits, b: Hits) -> Hits
    ensures { result.0 ≡ if_none (option_of n) a.0 b.0 }
{
    if n.is_none() { a } else { b }
}

// `n.map_or(0, |n| cmp::min(n, room))`
#[tactic(auto, using(units::proofs::Order::min_of), unfolding(crate::specs::Fast::clamped))]
fn clamp(n: Option<u32>, room: Hits) -> Hits
    ensures { (result.0 ≡ clamped (option_of n) room.0) × (result.0 ≤ room.0) }
{
    n.map_or(Hits(0), |n| Hits(n).min(room))
}

// The points that the target asks beyond the preliminary counts: the product and the subtraction round separately.
fn target_total(acc: Acc, denominator: Points, numerator: Points) -> Points
    requires { denominator.0 ≤ most_points }
    ensures { result.0 ≡ Fast.target_total acc.value denominator.0 numerator.0 }
{
    let x = acc.value * f64::from(denominator) - f64::from(numerator);
    if x > 0.0 {
        Points(rounding::round_ties_even(x))
    } else {
        Points(0)
    }
}

impl Running {
    ghost use Rattle.fast.specs.Code.{upgraded_of};

    // A given count, or as many upgrades from n50 as delta pays for, within the room: what is left, and the judgement's own
    // preliminary count. A missing count is taken off delta.
    #[tactic(auto, using(units::proofs::Order::min_of), unfolding(crate::specs::Fast::upgrade, crate::specs::Fast::if_none, score_state::specs::Given::or))]
    fn upgrade(self, n: Option<u32>, prelim: u32, increase: u32) -> Running
        requires increase_range { (0 < increase) × (increase ≤ 51) }
        requires prelim_bound { self.left.0 + prelim ≤ most_hits }
        ensures { (upgraded_of result ≡ Fast.upgrade (option_of n) (self.left.0 + prelim) increase self.delta.0) × (result.count.0 + result.left.0 ≡ self.left.0 + prelim) }
    {
        let room = self.left + Hits(prelim);
        match n {
            Some(n) => {
                let count = room.min(Hits(n));
                Running {
                    delta: self.delta,
                    left: room - count,
                    count,
                }
            }
            None => {
                let count = room.min(self.delta.steps(increase).count);
                Running {
                    delta: self.delta.saturating_sub(count * increase),
                    left: room - count,
                    count,
                }
            }
        }
    }
}

impl Partial {
    ghost use Rattle.fast.specs.Code.{prelim_of, remain_of, total_of};

    // The given counts, each clamped to what the earlier ones leave; 0 for a missing one.
    #[tactic(auto, unfolding(crate::specs::Fast::prelim))]
    fn prelim(q: Query, remain: Hits, misses: Hits) -> Partial
        requires { remain.0 + misses.0 ≤ most_hits }
        ensures { (prelim_of result.counts ≡ Fast.prelim (inspect_of q) remain.0) × (remain_of result ≡ remain.0) × (result.counts.misses ≡ misses.0) }
    {
        let given = Given::of(q);
        let n320 = clamp(given.n320, remain);
        let after_320 = remain - n320;
        let n300 = clamp(given.n300, after_320);
        let after_300 = after_320 - n300;
        let n200 = clamp(given.n200, after_300);
        let after_200 = after_300 - n200;
        let n100 = clamp(given.n100, after_200);
        let after_100 = after_200 - n100;
        let n50 = clamp(given.n50, after_100);
        Partial {
            counts: HitResults::of(n320, n300, n200, n100, n50, misses),
            left: after_100 - n50,
        }
    }

    // One missing: fill in the missing value.
    #[tactic(auto, unfolding(crate::specs::Fast::one_missing))]
    fn one_missing(self, q: Query) -> HitResults
        ensures { result ≡ Fast.one_missing (inspect_of q) (remain_of self) self.counts.misses (prelim_of self.counts) }
    {
        let given = Given::of(q);
        HitResults::of(
            if_none(given.n320, self.left, Hits(self.counts.n320)),
            if_none(given.n300, self.left, Hits(self.counts.n300)),
            if_none(given.n200, self.left, Hits(self.counts.n200)),
            if_none(given.n100, self.left, Hits(self.counts.n100)),
            if_none(given.n50, self.left, Hits(self.counts.n50)),
            Hits(self.counts.misses),
        )
    }

    // Start by assuming every non-miss is an n50 (baseline).
    #[tactic(auto, unfolding(crate::specs::Fast::delta_of, crate::specs::Fast::numerator, score_state::specs::Points::points))]
    fn delta(self, acc: Acc, classic: bool, total: Hits) -> Points
        requires { total.0 ≤ most_hits }
        ensures { result.0 ≡ Fast.delta_of acc.value (perfect_weight classic) total.0 (remain_of self) (prelim_of self.counts) }
    {
        let numerator = score_state::points_of(score_state::standard_weights(classic), self.counts);
        let denominator = total * score_state::perfect_weight(classic);
        let target_total = target_total(acc, denominator, numerator);
        let baseline = self.left * 10;
        target_total.saturating_sub(baseline)
    }

    // The counts from n320 to n50, each within the room that the others leave.
    fn upgrades(self, q: Query, delta: Points) -> Partial
        ensures { (result.counts ≡ Fast.upgrades (inspect_of q) (perfect_weight q.classic) (remain_of self) self.counts.misses (prelim_of self.counts) delta.0) × (total_of result ≡ total_of self) }
    {
        let given = Given::of(q);
        let n320_increase = score_state::perfect_weight(q.classic) - 10;
        let start = Running {
            delta,
            left: self.left,
            count: Hits(0),
        };
        let n320 = start.upgrade(given.n320, self.counts.n320, n320_increase);
        let n300 = n320.upgrade(given.n300, self.counts.n300, 50);
        let n200 = n300.upgrade(given.n200, self.counts.n200, 30);
        let n100 = n200.upgrade(given.n100, self.counts.n100, 10);
        let room = n100.left + Hits(self.counts.n50);
        let n50 = room.min(Hits(given.n50.unwrap_or(room.0)));
        Partial {
            counts: HitResults::of(
                n320.count,
                n300.count,
                n200.count,
                n100.count,
                n50,
                Hits(self.counts.misses),
            ),
            left: room - n50,
        }
    }

    // `+= left` at the first missing judgement by priority; at the last where those before it are given.
    #[tactic(auto, unfolding(crate::specs::Fast::first_missing, crate::specs::Fast::left_place, crate::specs::Fast::plus_left))]
    fn plus_left(self, q: Query) -> HitResults
        ensures { result ≡ plus_left (left_place (inspect_of q).priority (inspect_of q)) self.left.0 self.counts }
    {
        let mut counts = self.counts;
        let left = self.left.0;
        match (q.priority, Given::of(q)) {
            (0, Given { n320: None, .. }) => counts.n320 += left,
            (0, Given { n300: None, .. }) => counts.n300 += left,
            (0, Given { n200: None, .. }) => counts.n200 += left,
            (0, Given { n100: None, .. }) => counts.n100 += left,
            (0, _) => counts.n50 += left,
            (_, Given { n50: None, .. }) => counts.n50 += left,
            (_, Given { n100: None, .. }) => counts.n100 += left,
            (_, Given { n200: None, .. }) => counts.n200 += left,
            (_, Given { n300: None, .. }) => counts.n300 += left,
            (_, _) => counts.n320 += left,
        }
        counts
    }

    // What is still left goes to the first missing judgement by priority.
    #[tactic(auto, using(crate::proofs::Steps::left_added, crate::proofs::Steps::none_left))]
    fn add_left(self, q: Query) -> HitResults
        ensures { result ≡ Fast.add_left (inspect_of q) (total_of self) self.counts }
    {
        if self.left == Hits(0) {
            self.counts
        } else {
            self.plus_left(q)
        }
    }

    // For 3 or fewer provided values.
    #[tactic(auto, unfolding(crate::specs::Fast::three_or_fewer))]
    fn three_or_fewer(self, q: Query, acc: Acc, total: Hits) -> HitResults
        requires { total_of self ≡ total.0 }
        ensures { result ≡ Fast.three_or_fewer acc.value (inspect_of q) total.0 (remain_of self) self.counts.misses (prelim_of self.counts) }
    {
        let delta = self.delta(acc, q.classic, total);
        self.upgrades(q, delta).add_left(q)
    }
}

// Method 1, Fast, at a given accuracy: five zeros where nothing remains; else by how many counts are missing. Without an accuracy it
// is IgnoreAccuracy, as the Rust's first lines say; `generate` asks that of all methods in one place.
#[tactic(auto, unfolding(crate::specs::Fast::with_acc, inspect::specs::Inspect::remain))]
pub fn generate_hitresults(q: Query, acc: Acc) -> HitResults
    requires { Domain q }
    ensures { result ≡ Fast.with_acc acc.value (inspect_of q) }
{
    let total = inspect::total_hits(q);
    let misses = inspect::misses(q);
    let remain = total - misses;
    if remain == Hits(0) {
        return HitResults {
            n320: 0,
            n300: 0,
            n200: 0,
            n100: 0,
            n50: 0,
            misses: misses.0,
        };
    }
    let p = Partial::prelim(q, remain, misses);
    match inspect::missing_of(q.presence) {
        Missing::Nothing => p.counts,
        Missing::One => p.one_missing(q),
        Missing::Two | Missing::ThreePlus => p.three_or_fewer(q, acc, total),
    }
}
