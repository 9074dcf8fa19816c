// What a query is answered where nothing refuses it; specs/Generated.antt gives document 01's number and values for it and for a refusal.
#![tactic(auto)]

ghost use Rattle.std.specs.Prelude.{◌≡◌};
ghost use Rattle.generated.specs.Generated.{untried};

use score_state::HitResults;

// The six counts with tried and left: T minus points for method 3, and 0 for the others.
#[derive(Clone, Copy)]
pub struct Generated {
    pub counts: HitResults,
    pub tried: u32,
    pub left: i32,
}

// The counts of a method that tries no candidates.
impl From<HitResults> for Generated {
    ghost from_gives = { λ c g. g ≡ untried c };

    fn from(counts: HitResults) -> Generated {
        Generated {
            counts,
            tried: 0,
            left: 0,
        }
    }
}
