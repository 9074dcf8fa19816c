// closest.rs: the counts whose accuracy is closest to a given one, by the Rust's search. Its functions stand here in its order, but
// for those that look at points alone (crate `closest_points`). Each loop runs over its first two values only: the others never
// change the answer, as crate `closest_laws` proves.
#![tactic(auto)]

ghost use Rattle.std.specs.Prelude.{◌≡◌, List, [], ◌∷◌, ℕ, ◌+◌, ◌-◌, ◌≤◌};
ghost use Rattle.std.proofs.Math.Option.{Option};
ghost use Rattle.std.specs.Range.{range_inclusive_end};
ghost use Rattle.std.specs.Float.Ieee as Ieee;
ghost use Rattle.score_state.specs.Points.{counts_of};
ghost use Rattle.score_state.specs.Given.{option_of, missing, fill};
ghost use Rattle.score_state.specs.Accuracy.{Capped};
ghost use Rattle.inspect.specs.Presence.{givens_of, lacking};
ghost use Rattle.inspect.specs.Inspect.{inspect_of};
ghost use Rattle.inspect.specs.Checks.{Domain};
ghost use Rattle.closest_laws.specs.Loops.{first_two, offer, scan};
ghost use Rattle.closest_laws.specs.Closest as Laws;
ghost use Rattle.closest_laws.specs.Closest.{closest_at, provided, weights, plain_optimize_last_three, inner, outer, plain_optimize_three_plus_missing, clamp_and_fill, by_missing};
ghost use Rattle.closest_points.specs.Code.{values_of, pair_view, last_view};
ghost use Rattle.closest.specs.Answer.{answer_of};
ghost use Rattle.closest.specs.Within.{Within};

use closest_points::{LastThree, Pair, Three, TwoVars};
use inspect::{Missing, N50, N100, N200, N300, N320, Query, given};
use refusals::Refusal;
use rounding::Acc;
use score_state::HitResults;
use std::ops::RangeInclusive;
use units::{Hits, Points};

// `generate_hitresults` where acc is given. Overfull: two counts are missing, and the given ones are over remain.
pub fn generate_hitresults(q: Query, acc: Acc) -> Result<HitResults, Refusal>
    requires { Domain q }
    ensures { answer_of result ≡ closest_at (inspect_of q) acc.value }
{
    let play = Play::of(q, acc);
    if play.remain == Hits(0) {
        return Ok(HitResults {
            n320: 0,
            n300: 0,
            n200: 0,
            n100: 0,
            n50: 0,
            misses: play.counts.misses,
        });
    }
    play.optimize_hitresults()
}

// The given count, or the next of the pair where it is missing; and what is then left of the pair.
#[tactic(auto, unfolding(score_state::specs::Given::fill))]
fn next_of(pair: Pair, given: Option<u32>) -> (Hits, Pair)
    ensures { (gs : List (Option ℕ)) → result.0.0 ∷ fill gs (pair_view result.1) ≡ fill (option_of given ∷ gs) (pair_view pair) }
{
    let Pair(x, y) = pair;
    match given {
        Some(n) => (Hits(n), pair),
        None => (x, Pair(y, Hits(0))),
    }
}

// The given counts, and the pair at the missing places in turn.
fn fill_in(presence: u8, counts: HitResults, pair: Pair) -> HitResults
    ensures { (counts_of result ≡ fill (givens_of presence counts) (pair_view pair)) × (result.misses ≡ counts.misses) }
{
    let (n320, pair) = next_of(pair, given(presence, N320, counts.n320));
    let (n300, pair) = next_of(pair, given(presence, N300, counts.n300));
    let (n200, pair) = next_of(pair, given(presence, N200, counts.n200));
    let (n100, pair) = next_of(pair, given(presence, N100, counts.n100));
    let (n50, _) = next_of(pair, given(presence, N50, counts.n50));
    HitResults::of(n320, n300, n200, n100, n50, Hits(counts.misses))
}

// The nine arguments that the Rust's functions hand on. A missing count is 0; presence says which are: numbers beside those bits, as
// in the query (document 01, Option, Vec and the trait recast), since the match on which are missing goes by the presence number.
#[derive(Clone, Copy)]
pub struct Play {
    pub w320: u32,
    pub target_numerator: Points,
    pub remain: Hits,
    pub presence: u8,
    pub counts: HitResults,
    ghost within: { Within w320 target_numerator.0 remain.0 presence counts },
}

impl Play {
    ghost use Rattle.closest.specs.Code.{play_view, best_view};

    #[tactic(auto, using(closest_laws::proofs::Bits::zeroed), unfolding(closest_laws::specs::Closest::play_of, inspect::specs::Presence::unwrap_or_zero))]
    fn of(q: Query, acc: Acc) -> Play
        requires { Domain q }
        ensures { play_view result ≡ Laws.play_of (inspect_of q) acc.value }
    {
        let w320 = score_state::perfect_weight(q.classic);
        let counts = HitResults::of(
            Hits(q.n320),
            Hits(q.n300),
            Hits(q.n200),
            Hits(q.n100),
            Hits(q.n50),
            inspect::misses(q),
        );
        Play {
            w320,
            target_numerator: inspect::target_of(acc, w320, inspect::total_hits(q)),
            remain: inspect::remain(q),
            presence: q.presence,
            counts: inspect::unwrap_or_zero(q.presence, counts),
        }
    }

    // All provided, or one missing, which takes the rest.
    fn clamp_and_fill(self) -> HitResults
        ensures { result ≡ clamp_and_fill (play_view self) }
    {
        let counts = self.counts;
        let n320 = Hits(counts.n320).min(self.remain);
        let after320 = self.remain - n320;
        let n300 = Hits(counts.n300).min(after320);
        let after300 = after320 - n300;
        let n200 = Hits(counts.n200).min(after300);
        let after200 = after300 - n200;
        let n100 = Hits(counts.n100).min(after200);
        let after100 = after200 - n100;
        let n50 = Hits(counts.n50).min(after100);
        let rest = after100 - n50;
        let clamped = HitResults::of(n320, n300, n200, n100, n50, Hits(counts.misses));
        fill_in(self.presence, clamped, Pair(rest, Hits(0)))
    }

    // The Rust's match on the five counts and its count of the given ones, as one match.
    fn optimize_hitresults(self) -> Result<HitResults, Refusal>
        ensures { answer_of result ≡ by_missing (lacking self.presence) (play_view self) }
    {
        match inspect::missing_of(self.presence) {
            Missing::Nothing | Missing::One => Ok(self.clamp_and_fill()),
            Missing::Two => self.optimize_two_missing(),
            Missing::ThreePlus => Ok(self.optimize_three_plus_missing()),
        }
    }

    fn optimize_two_missing(self) -> Result<HitResults, Refusal>
        requires { lacking self.presence ≡ 2 }
        ensures { answer_of result ≡ by_missing 2 (play_view self) }
    {
        let counts = self.counts;
        let num_provided = score_state::total_hits(counts) - Hits(counts.misses);
        if self.remain < num_provided {
            return Err(Refusal::Overfull);
        }
        let weights = score_state::standard_weights(self.w320 == 60);
        let (w1, w2) = self.missing_weights();
        let vars = TwoVars {
            w1,
            w2,
            remain_hits: self.remain - num_provided,
            provided_sum: score_state::points_of(weights, counts),
            target: self.target_numerator,
        };
        Ok(fill_in(self.presence, counts, vars.solve_two_vars()))
    }

    // Of the two missing weights, the heavier stands at the lowest bit that presence lacks, the lighter at the highest.
    fn missing_weights(self) -> (u32, u32)
        requires { lacking self.presence ≡ 2 }
        ensures { missing (weights (play_view self)) (provided (play_view self)) ≡ result.0 ∷ result.1 ∷ [] }
    {
        let weights = [self.w320, 60, 40, 20, 10];
        let lacked = 31 - self.presence % 32;
        let heavier = lacked.trailing_zeros() as usize;
        let lighter = (7 - lacked.leading_zeros()) as usize;
        (weights[heavier], weights[lighter])
    }

    fn optimize_three_plus_missing(self) -> HitResults
        requires { 3 ≤ lacking self.presence }
        ensures { result ≡ plain_optimize_three_plus_missing (play_view self) }
    {
        let mut best = self.start();
        for new320 in self.n320_values() {
            best = best.row(self, Hits(new320));
        }
        best.result
    }

    // The best before any candidate.
    #[tactic(auto, using(closest_laws::proofs::Steps::or_given), unfolding(closest_laws::specs::Closest::start))]
    fn start(self) -> Best
        ensures { best_view result ≡ Laws.start (play_view self) }
    {
        let c = self.counts;
        let n50 = inspect::pick(self.presence, N50, self.remain.0, c.n50);
        Best {
            dist: f64::MAX,
            result: HitResults { n50, ..c },
        }
    }

    #[tactic(auto, unfolding(closest_laws::specs::Closest::space))]
    fn min_space_needed(self) -> Hits
        ensures { result.0 ≡ Laws.space (play_view self) }
    {
        let c = self.counts;
        Hits(c.n200) + Hits(c.n100) + Hits(c.n50)
    }

    #[tactic(auto, unfolding(closest_laws::specs::Closest::values320))]
    fn n320_values(self) -> RangeInclusive<u32>
        ensures { (values_of result ≡ Laws.values320 first_two (play_view self)) × (range_inclusive_end result ≤ self.remain.0) }
    {
        let n320 = given(self.presence, N320, self.counts.n320);
        let room = self.remain.saturating_sub(self.min_space_needed());
        closest_points::values(n320, room, self.remain, self.target_numerator, self.w320)
    }

    #[tactic(auto, using(closest_laws::proofs::Fills::minus_two), unfolding(closest_laws::specs::Closest::values300))]
    fn n300_values(self, new320: Hits) -> RangeInclusive<u32>
        requires { new320.0 ≤ self.remain.0 }
        ensures { (values_of result ≡ Laws.values300 first_two (play_view self) new320.0) × (range_inclusive_end result ≤ self.remain.0 - new320.0) }
    {
        let n300 = given(self.presence, N300, self.counts.n300);
        let remain_after_320 = self.remain - new320;
        let room = remain_after_320.saturating_sub(self.min_space_needed());
        let target_after_320 = self.target_numerator.saturating_sub(new320 * self.w320);
        closest_points::values(n300, room, remain_after_320, target_after_320, 60)
    }

    // How far the accuracy of a candidate lies from that of the target: f64, since its rounding decides ties.
    #[tactic(auto, unfolding(closest_laws::specs::Closest::try_at))]
    fn accuracy_distance(self, res: HitResults) -> f64
        requires { Capped res }
        ensures { result ≡ (Laws.try_at (play_view self) res).dist }
    {
        let actual_acc = score_state::accuracy_of(res, self.w320 == 60);
        let total_hits = self.remain + Hits(self.counts.misses);
        let target_acc = self.target_numerator.ratio(total_hits * self.w320);
        rounding::distance_of(actual_acc, target_acc)
    }

    // The last three values, of the hits that are left.
    #[tactic(auto, unfolding(closest_laws::specs::Closest::plain_optimize_last_three))]
    fn optimize_last_three(self, last: LastThree) -> Three
        ensures { last_view result ≡ plain_optimize_last_three first_two (play_view self).n200 (play_view self).n100 (play_view self).n50 last.remain.0 last.earned.0 last.target.0 }
    {
        let remain = last.remain;
        let n2 = Hits(self.counts.n200);
        let n1 = Hits(self.counts.n100);
        let n5 = Hits(self.counts.n50);
        match self.presence / 4 % 8 {
            0b111 => Three(n2, n1, n5),
            0b011 => Three(n2, n1, remain.saturating_sub(n2 + n1)),
            0b101 => Three(n2, remain.saturating_sub(n2 + n5), n5),
            0b110 => Three(remain.saturating_sub(n1 + n5), n1, n5),
            0b001 => {
                let Pair(n100, n50) = last.two_of_last(n2, 40, 10, 10);
                Three(n2, n100, n50)
            }
            0b010 => {
                let Pair(n200, n50) = last.two_of_last(n1, 20, 10, 30);
                Three(n200, n1, n50)
            }
            0b100 => {
                let Pair(n200, n100) = last.two_of_last(n5, 10, 20, 20);
                Three(n200, n100, n5)
            }
            _ => last.all_three(),
        }
    }
}

// The best by f64 distance.
#[derive(Clone, Copy)]
pub struct Best {
    pub dist: f64,
    pub result: HitResults,
}

impl Best {
    ghost use Rattle.closest.specs.Code.{play_view, best_view, best_try};

    #[tactic(auto, unfolding(closest_laws::specs::Loops::offer))]
    fn offer(mut self, dist: f64, res: HitResults) -> Best
        ensures { best_view result ≡ offer Ieee.lt (best_try dist res) (best_view self) }
    {
        if dist < self.dist {
            self.dist = dist;
            self.result = res;
        }
        self
    }

    // The candidate with so many n320 and n300, unless the given counts have no room.
    #[tactic(auto, using(units::proofs::Order::lt_of), unfolding(closest_laws::specs::Closest::inner, closest_laws::specs::Loops::scan))]
    fn attempt(self, play: Play, new320: Hits, new300: Hits) -> Best
        requires { (3 ≤ lacking play.presence) × (new320.0 + new300.0 ≤ play.remain.0) }
        ensures { best_view result ≡ scan Ieee.lt (inner first_two (play_view play) new320.0 new300.0) (best_view self) }
    {
        let remain_after_300 = play.remain - (new320 + new300);
        if remain_after_300 < play.min_space_needed() {
            return self;
        }
        let last = LastThree {
            remain: remain_after_300,
            earned: new320 * play.w320 + new300 * 60,
            target: play.target_numerator,
        };
        let Three(n200, n100, n50) = play.optimize_last_three(last);
        let result = HitResults::of(new320, new300, n200, n100, n50, Hits(play.counts.misses));
        self.offer(play.accuracy_distance(result), result)
    }

    // The candidates with so many n320.
    #[tactic(auto, using(units::proofs::Order::lt_of), unfolding(closest_laws::specs::Closest::outer, closest_laws::specs::Loops::scan))]
    fn row(self, play: Play, new320: Hits) -> Best
        requires { (3 ≤ lacking play.presence) × (new320.0 ≤ play.remain.0) }
        ensures { best_view result ≡ scan Ieee.lt (outer first_two (play_view play) new320.0) (best_view self) }
    {
        if play.remain - new320 < play.min_space_needed() {
            return self;
        }
        let mut best = self;
        for new300 in play.n300_values(new320) {
            best = best.attempt(play, new320, Hits(new300));
        }
        best
    }
}
