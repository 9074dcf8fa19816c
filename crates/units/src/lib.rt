// A note count and a score sum: document 01's `remain_hits` and `remain_score`, as two structs of which neither can stand for the other.
#![tactic(auto)]

ghost use Rattle.std.specs.Prelude.{◌≡◌, ◌+◌, ◌-◌, ◌*◌, ◌/◌, ◌%◌, ◌<◌, ◌≤◌, min, T, ltb, eqb, pos};
ghost use Rattle.std.specs.Float.{binary64};
ghost use Rattle.std.specs.Float.Ieee.{of_int};
ghost use Rattle.std.specs.Float.Ieee.Nearest.{closest};
ghost use Rattle.rounding.specs.Round.{round_even, product};
ghost use Rattle.rounding.specs.Distance.{ratio};
ghost use Rattle.rounding.specs.Quotient.{most_dividend, most_divisor, rounded_up};
ghost use Rattle.units.specs.Limits.{most32};
ghost use Rattle.units.specs.Gap.{gap};

use rounding::Acc;
use std::ops::{Add, Mul, Sub};

// A number of notes; no number of points. Code above this crate adds, subtracts and compares notes and points by the operators and
// methods of these two structs, so that neither can stand for the other.
#[derive(Clone, Copy, PartialEq, Eq, PartialOrd, Ord)]
pub struct Hits(pub u32);

// A number of points; no number of notes.
#[derive(Clone, Copy, PartialEq, Eq, PartialOrd, Ord)]
pub struct Points(pub u32);

// A whole division of points by a step of as many points: how often the step fits, and what is left over.
#[derive(Clone, Copy)]
pub struct Steps {
    pub count: Hits,
    pub rest: Points,
}

impl Add for Hits {
    type Output = Hits;

    ghost can_add = { λ a b. a.0 + b.0 ≤ most32 };

    ghost add_gives = { λ a b r. r.0 ≡ a.0 + b.0 };

    fn add(self, other: Hits) -> Hits {
        Hits(self.0 + other.0)
    }
}

// The rest, where the other is a part of it.
impl Sub for Hits {
    type Output = Hits;

    ghost can_sub = { λ a b. b.0 ≤ a.0 };

    ghost sub_gives = { λ a b r. r.0 ≡ a.0 - b.0 };

    fn sub(self, other: Hits) -> Hits {
        Hits(self.0 - other.0)
    }
}

// The points of so many hits of one weight.
impl Mul<u32> for Hits {
    type Output = Points;

    ghost can_mul = { λ a w. w * a.0 ≤ most32 };

    ghost mul_gives = { λ a w r. r.0 ≡ w * a.0 };

    fn mul(self, weight: u32) -> Points {
        Points(weight * self.0)
    }
}

impl Hits {
    // 0 where the other is more.
    pub fn saturating_sub(self, other: Hits) -> Hits
        ensures { result.0 ≡ self.0 - other.0 }
    {
        Hits(self.0.saturating_sub(other.0))
    }

    // Half of them, rounded down.
    pub fn half(self) -> Hits
        ensures { result.0 ≡ self.0 / 2 }
    {
        Hits(self.0 / 2)
    }
}

impl Add for Points {
    type Output = Points;

    ghost can_add = { λ a b. a.0 + b.0 ≤ most32 };

    ghost add_gives = { λ a b r. r.0 ≡ a.0 + b.0 };

    fn add(self, other: Points) -> Points {
        Points(self.0 + other.0)
    }
}

// The rest, where the other is a part of it.
impl Sub for Points {
    type Output = Points;

    ghost can_sub = { λ a b. b.0 ≤ a.0 };

    ghost sub_gives = { λ a b r. r.0 ≡ a.0 - b.0 };

    fn sub(self, other: Points) -> Points {
        Points(self.0 - other.0)
    }
}

impl From<Points> for f64 {
    ghost from_gives = { λ p x. x ≡ of_int binary64 (pos p.0) };

    fn from(points: Points) -> f64 {
        points.0 as f64
    }
}

impl Points {
    // 0 where the other is more.
    pub fn saturating_sub(self, other: Points) -> Points
        ensures { result.0 ≡ self.0 - other.0 }
    {
        Points(self.0.saturating_sub(other.0))
    }

    // How far the two lie apart.
    #[tactic(auto, unfolding(crate::specs::Gap::gap))]
    pub fn gap(self, other: Points) -> Points
        ensures { result.0 ≡ gap self.0 other.0 }
    {
        Points(self.0.abs_diff(other.0))
    }

    // How many hits at so many points each fit, and the points left over.
    pub fn steps(self, step: u32) -> Steps
        requires { 0 < step }
        ensures { (result.count.0 ≡ self.0 / step) × (result.rest.0 ≡ self.0 % step) }
    {
        Steps {
            count: Hits(self.0 / step),
            rest: Points(self.0 % step),
        }
    }

    // The same rounded up.
    pub fn div_ceil(self, step: u32) -> Hits
        requires { (self.0 ≤ most_dividend) × (0 < step) × (step ≤ most_divisor) }
        ensures { (result.0 ≡ rounded_up self.0 step) × (result.0 ≤ self.0 + step) }
    {
        Hits(rounding::div_ceil(self.0, step))
    }

    // The same to the nearest whole number, a half to the even one.
    pub fn div_round_ties_even(self, step: u32) -> Hits
        requires { (self.0 ≤ most_dividend) × (0 < step) × (step ≤ most_divisor) }
        ensures { result.0 ≡ closest self.0 step }
    {
        Hits(rounding::div_round_ties_even(self.0, step))
    }

    // The share that they are of the whole, as one f64 division.
    pub fn ratio(self, whole: Points) -> f64
        ensures { result ≡ ratio self.0 whole.0 }
    {
        rounding::ratio_of(self.0, whole.0)
    }

    // acc times them, one f64 product, to the nearest whole number, a half to even.
    pub fn rounded_product(self, acc: Acc) -> Points
        requires { self.0 ≤ most_dividend }
        ensures { (result.0 ≡ round_even (product acc.value self.0)) × (result.0 ≤ self.0) }
    {
        Points(rounding::rounded_product(acc, self.0))
    }
}
