// Nearest (document 01; not the repository's): of all splits the one whose points lie nearest to the rounded target.
#![tactic(auto)]

ghost use Rattle.std.specs.Prelude.{◌≡◌, false, not, ◌&&◌, ◌||◌, [], ◌∷◌, eqb, ltb, suc, ◌+◌, ◌*◌, ◌<◌, ◌≤◌, ◌-◌, Err};
ghost use Rattle.std.proofs.Math.Option.{none};
ghost use Rattle.units.specs.Limits.{most32, most_weight};
ghost use Rattle.score_state.specs.Points.{weights_of};
ghost use Rattle.refusals.specs.declared.Refusal as Refusals;
ghost use Rattle.refusals.specs.declared.Refusal.TheVariants.{NoSplit};
ghost use Rattle.score_state.specs.Given.{option_of, missing};
ghost use Rattle.inspect.specs.Presence.{has, given, givens_of, lacking};
ghost use Rattle.nearest_laws.specs.Walk as Walk;
ghost use Rattle.nearest_laws.specs.Nearest as Nearest;
ghost use Rattle.nearest_laws.specs.Places.{place_of};
ghost use Rattle.walk.specs.Code.{view, fresh};
ghost use Rattle.plan.specs.Planned.{folded_of};
ghost use Rattle.nearest.specs.Walked.{places_of, walked_of};
ghost use Rattle.nearest.specs.Candidates.{candidates_of, Walkable};
ghost use Rattle.nearest.specs.Outcome.{five_of, six_of, given_five, found_of, outcome_of, Ask};

use inspect::Missing;
use refusals::Refusal;
use score_state::{HitResults, Weights};
use units::{Hits, Points};
use walk::{Best, Plan, Setting, Spread};

// Five numbers of hits, from n320 to n50. The misses are no part of Nearest.
#[derive(Clone, Copy)]
pub struct Five {
    pub n320: Hits,
    pub n300: Hits,
    pub n200: Hits,
    pub n100: Hits,
    pub n50: Hits,
}

// Five counts, and how many candidates the walk tried.
#[derive(Clone, Copy)]
pub struct Split {
    pub counts: Five,
    pub tried: u32,
}

// A candidate of the walk with the plan that it is of.
#[derive(Clone, Copy)]
struct Candidate {
    plan: Plan,
    spread: Spread,
}

// The counts of a play without misses.
impl From<Five> for HitResults {
    ghost from_gives = { λ five counts. counts ≡ six_of five };

    fn from(five: Five) -> HitResults {
        HitResults::of(
            five.n320,
            five.n300,
            five.n200,
            five.n100,
            five.n50,
            Hits(0),
        )
    }
}

// The best of the candidates: none where nothing is missing, all hits that are left where one is, or the walk's.
fn best_of(presence: u8, plan: Plan, remain_hits: Hits, points: Points) -> Best
    requires { Walkable (lacking presence) plan remain_hits.0 points.0 }
    ensures { view result ≡ Walk.settle plan.target.0 (candidates_of (lacking presence) plan remain_hits.0 points.0) fresh }
{
    let none = Hits(0);
    let at = Setting {
        left: remain_hits,
        points,
        n300: none,
        n200: none,
        n100: none,
    };
    let start = Best::fresh();
    match inspect::missing_of(presence) {
        Missing::Nothing => start,
        Missing::One => start.attempt(
            at,
            remain_hits,
            (points + remain_hits * plan.a).gap(plan.target),
        ),
        Missing::Two | Missing::ThreePlus => start.each_n300(plan, at),
    }
}

impl Candidate {
    // The count of a missing judgement: that of a, that of c, or the middle's.
    #[tactic(auto, unfolding(nearest_laws::specs::Places::place_of))]
    fn share(self, weight: u32, middle: Hits) -> Hits
        ensures { result.0 ≡ place_of self.plan.a self.plan.c self.spread.top.0 self.spread.rest.0 weight none middle.0 }
    {
        if weight == self.plan.a {
            self.spread.top
        } else if weight == self.plan.c {
            self.spread.rest
        } else {
            middle
        }
    }

    // The count at a place: the given one, or a missing one's.
    #[tactic(auto, unfolding(nearest_laws::specs::Places::place_of))]
    fn place(self, given: Option<u32>, weight: u32, middle: Hits) -> Hits
        ensures { result.0 ≡ place_of self.plan.a self.plan.c self.spread.top.0 self.spread.rest.0 weight (option_of given) middle.0 }
    {
        match given {
            Some(n) => Hits(n),
            None => self.share(weight, middle),
        }
    }

    // The counts at their places, the given ones among them.
    fn placed(self, weights: Weights, presence: u8, known: HitResults) -> Five
        ensures { five_of result ≡ places_of weights presence known self.plan self.spread }
    {
        let p = presence;
        let x = self.spread;
        let none = Hits(0);
        let n320 = inspect::given(p, inspect::N320, known.n320);
        let n300 = inspect::given(p, inspect::N300, known.n300);
        let n200 = inspect::given(p, inspect::N200, known.n200);
        let n100 = inspect::given(p, inspect::N100, known.n100);
        let n50 = inspect::given(p, inspect::N50, known.n50);
        Five {
            n320: self.place(n320, weights.n320, none),
            n300: self.place(n300, weights.n300, x.n300),
            n200: self.place(n200, weights.n200, x.n200),
            n100: self.place(n100, weights.n100, x.n100),
            n50: self.place(n50, weights.n50, none),
        }
    }
}

// Steps 1 to 4: the split that the walk finds, with the hits to give and the points of the given counts.
fn found(
    weights: Weights,
    presence: u8,
    known: HitResults,
    remain_hits: Hits,
    points: Points,
    target: Points,
) -> Split
    requires { Walk.Falling (suc most_weight) (missing (weights_of weights) (givens_of (folded_of weights presence) known)) × (points.0 + most_weight * remain_hits.0 ≤ most32) }
    ensures { found_of result ≡ walked_of (weights_of weights) (givens_of (folded_of weights presence) known) target.0 remain_hits.0 points.0 }
{
    let plan = plan::plan_of(weights, presence, target);
    let folded = plan::folded(weights, presence);
    let best = best_of(folded, plan, remain_hits, points);
    let spread = best.spread;
    Split {
        counts: Candidate { plan, spread }.placed(weights, folded, known),
        tried: best.tried,
    }
}

// The split where all five are missing: there always is one.
pub fn all_missing(weights: Weights, remain: Hits, target: Points) -> Split
    requires { Nearest.Weighting (weights_of weights) × (most_weight * remain.0 ≤ most32) }
    ensures { found_of result ≡ Nearest.found (weights_of weights) (none ∷ none ∷ none ∷ none ∷ none ∷ []) target.0 remain.0 }
{
    let known = HitResults {
        n320: 0,
        n300: 0,
        n200: 0,
        n100: 0,
        n50: 0,
        misses: 0,
    };
    found(weights, 0, known, remain, Points(0), target)
}

// Check 14: the given sum is over remain, or five are given and their sum is not remain.
fn no_split(presence: u8, sum: Hits, remain: Hits) -> bool
    ensures { result ≡ (ltb remain.0 sum.0 || (eqb (lacking presence) 0 && not (eqb sum.0 remain.0))) }
{
    match inspect::missing_of(presence) {
        Missing::Nothing => sum != remain,
        _ => remain < sum,
    }
}

// Nearest: bits N320 to N50 of presence say which of the five are given. A missing one's number is not looked at, nor are higher
// bits of presence. Refused where there is no split.
pub fn nearest(
    weights: Weights,
    presence: u8,
    given: Five,
    remain: Hits,
    target: Points,
) -> Result<Split, Refusal>
    requires { Ask weights presence given remain }
    ensures outcome { outcome_of result ≡ Nearest.nearest (weights_of weights) (given_five presence given) target.0 remain.0 }
    ensures refusal { (r : Refusals.Refusal) → result ≡ Err r → r ≡ NoSplit }
{
    let known = inspect::unwrap_or_zero(presence, HitResults::from(given));
    let sum = score_state::total_hits(known);
    if no_split(presence, sum, remain) {
        return Err(Refusal::NoSplit);
    }
    let points = score_state::points_of(weights, known);
    Ok(found(weights, presence, known, remain - sum, points, target))
}
