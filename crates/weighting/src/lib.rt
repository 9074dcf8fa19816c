// Document 02, L4: which weights a league may set, and by which weights the rows of a sheet are scored.
#![tactic(auto)]

ghost use Rattle.std.specs.Prelude.{◌≡◌};
ghost use Rattle.score_state.specs.Points.{weights_of};
ghost use Rattle.nearest_laws.specs.Nearest.{weighs};
ghost use Rattle.weighting.specs.Scoring.{allowed};

use score_state::Weights;

// By which weights a sheet's rows are scored: by the two standard weightings, or by a league's own. No `Option`: without own weights a row has
// those of its own classic flag, which `None` would not say.
#[derive(Clone, Copy)]
pub enum Scoring {
    Standard,
    Own(Weights),
}

// Whether weights fall from at most 100 to at least 1: strictly, but for the first two, which may be equal.
#[tactic(auto, unfolding(nearest_laws::specs::Nearest::weighs))]
pub fn is_weighting(weights: Weights) -> bool
    ensures { result ≡ weighs (weights_of weights) }
{
    weights.n320 <= 100
        && weights.n300 <= weights.n320
        && weights.n200 < weights.n300
        && weights.n100 < weights.n200
        && weights.n50 < weights.n100
        && weights.n50 >= 1
}

// Whether check 18 lets the weights pass; the standard ones always do.
pub fn is_allowed(scoring: Scoring) -> bool
    ensures { result ≡ allowed scoring }
{
    match scoring {
        Scoring::Standard => true,
        Scoring::Own(weights) => is_weighting(weights),
    }
}
