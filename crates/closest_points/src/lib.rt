// The parts of closest.rs that look for a number of points, in whole numbers: for two missing counts (`solve_two_vars`), for the last
// three (`two_of_last`, `all_three`), and the values that n320 and n300 run through. Each loop runs over its first two values only:
// the others never change the answer, as crate `closest_laws` proves.
#![tactic(auto)]

ghost use Rattle.std.specs.Prelude.{◌≡◌, [], ◌∷◌, ◌+◌, ◌-◌, ◌*◌, ◌/◌, ◌<◌, ◌≤◌};
ghost use Rattle.std.proofs.Math.Option.{none};
ghost use Rattle.std.specs.Range.{range_inclusive_end};
ghost use Rattle.rounding.specs.Quotient.{rounded_up};
ghost use Rattle.units.specs.Limits.{most32, most_hits, most_weight, most_points};
ghost use Rattle.score_state.specs.Given.{option_of};
ghost use Rattle.closest_laws.specs.Loops.{first_two, offer, nearer};
ghost use Rattle.closest_laws.specs.Closest as Laws;
ghost use Rattle.closest_laws.specs.Closest.{split_at, best_split, solve_two, last_at, plain_optimize_last_three};
ghost use Rattle.closest_points.specs.Code.{values_of, TwoOfLast, pair_view, last_view, near_view, near_by, near_try};

use std::ops::RangeInclusive;
use units::{Hits, Points};

// Counts of two judgements, the heavier first.
#[derive(Clone, Copy)]
pub struct Pair(pub Hits, pub Hits);

// Counts of three judgements, the heaviest first.
#[derive(Clone, Copy)]
pub struct Three(pub Hits, pub Hits, pub Hits);

// The best counts by whole distance, and their distance once any are found.
#[derive(Clone, Copy)]
pub struct Near<A> {
    pub dist: Option<Points>,
    pub best: A,
}

impl<A: Copy> Near<A> {
    #[tactic(auto, using(units::proofs::Order::lt_of), unfolding(closest_laws::specs::Loops::offer, closest_laws::specs::Loops::nearer))]
    fn offer(mut self, dist: Points, counts: A) -> Near<A>
        ensures { near_view result ≡ offer nearer (near_try dist counts) (near_view self) }
    {
        if self.dist.is_none_or(|least| dist < least) {
            self.dist = Some(dist);
            self.best = counts;
        }
        self
    }
}

// Two counts are missing: so many hits go to the weights w1 and w2, the heavier first, beside the points of the given counts.
#[derive(Clone, Copy)]
pub struct TwoVars {
    pub w1: u32,
    pub w2: u32,
    pub remain_hits: Hits,
    pub provided_sum: Points,
    pub target: Points,
    pub ghost bounds: { (w1 ≤ most_weight) × (w2 ≤ w1) × (remain_hits.0 ≤ most_hits) × (provided_sum.0 ≤ most_points) × (target.0 ≤ most_points) },
}

impl TwoVars {
    #[tactic(auto, using(closest_laws::proofs::TwoMissing::solved_alike))]
    pub fn solve_two_vars(self) -> Pair
        ensures { pair_view result ≡ solve_two self.w1 self.w2 self.target.0 self.remain_hits.0 self.provided_sum.0 }
    {
        let hits = self.remain_hits;
        if self.w1 == self.w2 {
            let half = hits.half();
            return Pair(half, hits - half);
        }
        let raw_x = self
            .target
            .saturating_sub(self.provided_sum + hits * self.w2);
        let step = self.w1 - self.w2;
        let floor = hits.min(raw_x.steps(step).count);
        let ceil = hits.min(raw_x.div_ceil(step));
        self.best_of_four(floor, ceil)
    }

    // The four numbers of hits at w1 that are tried: none, floor, ceil and all.
    fn best_of_four(self, floor: Hits, ceil: Hits) -> Pair
        requires { (floor.0 ≤ self.remain_hits.0) × (ceil.0 ≤ self.remain_hits.0) }
        ensures { pair_view result ≡ best_split self.w1 self.w2 self.target.0 self.remain_hits.0 self.provided_sum.0 (0 ∷ floor.0 ∷ ceil.0 ∷ self.remain_hits.0 ∷ []) }
    {
        let mut near = Near {
            dist: None,
            best: Pair(Hits(0), self.remain_hits),
        };
        for x in [Hits(0), floor, ceil, self.remain_hits] {
            near = near.split_at(self, x);
        }
        near.best
    }
}

impl Near<Pair> {
    // x of the hits have the weight w1, the others w2.
    fn split_at(self, vars: TwoVars, x: Hits) -> Near<Pair>
        requires { x.0 ≤ vars.remain_hits.0 }
        ensures { near_by pair_view result ≡ offer nearer (split_at vars.w1 vars.w2 vars.target.0 vars.remain_hits.0 vars.provided_sum.0 x.0) (near_by pair_view self) }
    {
        let y = vars.remain_hits - x;
        let score = vars.provided_sum + (x * vars.w1 + y * vars.w2);
        self.offer(score.gap(vars.target), Pair(x, y))
    }
}

// What n320 or n300 runs through, of this weight, for so many hits that are to earn so many points: a given count is clamped to the
// room, a missing one takes the first two of the Rust's values within it.
pub fn values(
    given: Option<u32>,
    room: Hits,
    hits: Hits,
    target: Points,
    weight: u32,
) -> RangeInclusive<u32>
    requires { (room.0 ≤ most_hits) × (hits.0 ≤ most_hits) × (target.0 ≤ most_points) × (10 < weight) × (weight ≤ most_weight) }
    ensures { (values_of result ≡ Laws.values first_two (option_of given) room.0 ((target.0 - 10 * hits.0) / (weight - 10)) (rounded_up target.0 weight + 1)) × (range_inclusive_end result ≤ room.0) }
{
    match given {
        Some(n) => {
            let clamped = n.min(room.0);
            clamped..=clamped
        }
        None => {
            let min_raw = target.saturating_sub(hits * 10);
            let min_val = room.min(min_raw.steps(weight - 10).count);
            let max_val = room.min(target.div_ceil(weight) + Hits(1));
            let second = max_val.min(min_val + Hits(1));
            min_val.0..=second.0
        }
    }
}

// The last three counts: the hits that remain for them, with so many points earned by those before.
#[derive(Clone, Copy)]
pub struct LastThree {
    pub remain: Hits,
    pub earned: Points,
    pub target: Points,
    pub ghost bounds: { (earned.0 + most_weight * remain.0 ≤ most_points) × (target.0 ≤ most_points) },
}

impl LastThree {
    // One of the three is given, n of this weight; the others weigh light and light + step.
    pub fn two_of_last(self, n: Hits, weight: u32, light: u32, step: u32) -> Pair
        requires { (self.earned.0 + weight * n.0 + light * self.remain.0 ≤ most32) × (0 < step) × (step ≤ most_weight) }
        ensures { TwoOfLast self.remain.0 n.0 (self.earned.0 + weight * n.0) self.target.0 light step result.0.0 result.1.0 }
    {
        let remaining = self.remain.saturating_sub(n);
        let base = self.earned + n * weight;
        let raw = self.target.saturating_sub(base + remaining * light);
        let x = remaining.min(raw.div_round_ties_even(step));
        Pair(x, remaining.saturating_sub(x))
    }

    // All three missing.
    pub fn all_three(self) -> Three
        ensures { last_view result ≡ plain_optimize_last_three first_two none none none self.remain.0 self.earned.0 self.target.0 }
    {
        let mut near = Near {
            dist: None,
            best: Three(Hits(0), Hits(0), self.remain),
        };
        for new200 in self.n200_values() {
            near = near.last_at(self, Hits(new200));
        }
        near.best
    }

    fn n200_values(self) -> RangeInclusive<u32>
        ensures { (values_of result ≡ Laws.values200 first_two self.remain.0 self.earned.0 self.target.0) × (range_inclusive_end result ≤ self.remain.0) }
    {
        let min_raw = self.target.saturating_sub(self.earned + self.remain * 20);
        let min200 = min_raw.steps(20).count;
        let max_raw = self.target.saturating_sub(self.earned);
        let max200 = self.remain.min(max_raw.div_ceil(40) + Hits(1));
        let second = max200.min(min200 + Hits(1));
        min200.0..=second.0
    }
}

impl Near<Three> {
    // n200 of the hits are n200; n100 comes by rounding, and n50 is the rest.
    fn last_at(self, last: LastThree, n200: Hits) -> Near<Three>
        requires { n200.0 ≤ last.remain.0 }
        ensures { near_by last_view result ≡ offer nearer (last_at last.remain.0 last.earned.0 last.target.0 n200.0) (near_by last_view self) }
    {
        let Pair(n100, n50) = last.two_of_last(n200, 40, 10, 10);
        let score = last.earned + (n200 * 40 + n100 * 20 + n50 * 10);
        self.offer(score.gap(last.target), Three(n200, n100, n50))
    }
}
