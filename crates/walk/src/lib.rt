// Nearest's walk (document 01, steps 2 to 4): both candidates of every setting of the middles, and the first nearest of them.
#![tactic(auto)]

ghost use Rattle.std.specs.Prelude.{◌≡◌, false, ℕ, suc, ◌+◌, ◌*◌, ◌<◌, ◌≤◌, ◌-◌, min};
ghost use Rattle.units.specs.Limits.{most32};
ghost use Rattle.units.specs.Gap.{gap};
ghost use Rattle.nearest_laws.specs.Walk as Walk;
ghost use Rattle.walk.specs.declared.Plan as Plans;
ghost use Rattle.walk.specs.Code.{view, fresh, try_of, trial_of, set_of, both_of, each_n300, PointsFit, Ready, IsLow};

use units::{Hits, Points};

// A middle: its weight and its q. A place that is no middle has weight 0 and q 1, so that it is walked once, with count 0.
#[derive(Clone, Copy)]
pub struct Middle {
    pub weight: u32,
    pub q: u32,
}

// The heaviest and the lightest missing weight, what stands at the three places between n320 and n50, and the target.
#[derive(Clone, Copy)]
pub struct Plan {
    pub a: u32,
    pub c: u32,
    pub n300: Middle,
    pub n200: Middle,
    pub n100: Middle,
    pub target: Points,
}

// The counts of a candidate: at a, at the middles, at c.
#[derive(Clone, Copy)]
pub struct Spread {
    pub top: Hits,
    pub n300: Hits,
    pub n200: Hits,
    pub n100: Hits,
    pub rest: Hits,
}

// A setting of the middles: the hits left, the points so far with those of the given counts, and the middles' counts. It is handed over
// beside the plan and not as one value with it: the plan stands through the whole walk, and each turn makes a new setting.
#[derive(Clone, Copy)]
pub struct Setting {
    pub left: Hits,
    pub points: Points,
    pub n300: Hits,
    pub n200: Hits,
    pub n100: Hits,
}

// The best so far; nothing is found while tried is 0. No `Option`: document 01, Language forms, has the candidates counted in this struct.
#[derive(Clone, Copy)]
pub struct Best {
    pub tried: u32,
    pub dist: Points,
    pub spread: Spread,
}

// The lower candidate of a setting: its hits at a, and how far its points lie below the target or above it; one of the two is 0.
#[derive(Clone, Copy)]
struct Low {
    top: Hits,
    below: Points,
    above: Points,
}

// lo: the most hits at a that stay at or below the target, 0 where none does. What the division leaves over is its distance, unless
// lo is cut off at the hits left.
fn lowest(plan: Plan, at: Setting) -> Low
    requires { (plan.c < plan.a) × PointsFit plan at }
    ensures { IsLow plan at result }
{
    let left = at.left;
    let step = plan.a - plan.c;
    let base = at.points + left * plan.c;
    if plan.target < base {
        return Low {
            top: Hits(0),
            below: Points(0),
            above: base - plan.target,
        };
    }
    let steps = (plan.target - base).steps(step);
    let count = steps.count;
    let rest = steps.rest;
    if count < left {
        return Low {
            top: count,
            below: rest,
            above: Points(0),
        };
    }
    // Cut off at the hits left, or just there.
    Low {
        top: left,
        below: (count - left) * step + rest,
        above: Points(0),
    }
}

impl Middle {
    // How many counts a middle takes: from 0 to min(q − 1, hits left).
    fn turns(self, left: Hits) -> Hits
        requires { 0 < self.q }
        ensures { result.0 ≡ suc (min (self.q - 1) left.0) }
    {
        Hits(self.q - 1).min(left) + Hits(1)
    }
}

impl Setting {
    // What k hits at a middle leave; its count is put in its place by the caller.
    fn set(self, middle: Middle, k: Hits) -> Setting
        requires { (k.0 ≤ self.left.0) × (self.points.0 + middle.weight * k.0 ≤ most32) }
        ensures { result ≡ set_of self middle k.0 }
    {
        Setting {
            left: self.left - k,
            points: self.points + k * middle.weight,
            ..self
        }
    }
}

impl Best {
    // A walk that has tried nothing.
    pub fn fresh() -> Best
        ensures { view result ≡ fresh }
    {
        let none = Hits(0);
        Best {
            tried: 0,
            dist: Points(0),
            spread: Spread {
                top: none,
                n300: none,
                n200: none,
                n100: none,
                rest: none,
            },
        }
    }

    // A distance of 0 ends the walk.
    #[tactic(auto, unfolding(nearest_laws::specs::Walk::over))]
    fn over(self) -> bool
        ensures { result ≡ Walk.over (view self) }
    {
        0 < self.tried && self.dist == Points(0)
    }

    // A candidate is better than none, and where it is nearer.
    #[tactic(auto, unfolding(nearest_laws::specs::Walk::better))]
    fn better(self, dist: Points) -> bool
        ensures { result ≡ Walk.better (view self) dist.0 }
    {
        self.tried == 0 || dist < self.dist
    }

    // A better candidate takes the place of the best.
    fn offer(mut self, spread: Spread, dist: Points) -> Best
        requires { self.tried < most32 }
        ensures { (T p : ℕ) → dist.0 ≡ gap p T → view result ≡ Walk.offer T (try_of spread p) (view self) }
    {
        let better = self.better(dist);
        self.tried += 1;
        if better {
            self.dist = dist;
            self.spread = spread;
        }
        self
    }

    // The candidate with `top` hits at a and the rest at c, whose points lie so far from the target.
    pub fn attempt(self, at: Setting, top: Hits, dist: Points) -> Best
        requires { (top.0 ≤ at.left.0) × (self.tried < most32) }
        ensures { (p : Plans.Plan) → dist.0 ≡ gap (trial_of p at top.0).points p.target.0 → view result ≡ Walk.offer p.target.0 (trial_of p at top.0) (view self) }
    {
        let spread = Spread {
            top,
            n300: at.n300,
            n200: at.n200,
            n100: at.n100,
            rest: at.left - top,
        };
        self.offer(spread, dist)
    }

    // Both candidates of a setting: lo, then lo + 1, which has a − c points more.
    fn both(self, plan: Plan, at: Setting) -> Best
        requires { PointsFit plan at × Ready plan (both_of plan at) self × (Walk.over (view self) ≡ false) }
        ensures { view result ≡ Walk.settle plan.target.0 (both_of plan at) (view self) }
    {
        let low = lowest(plan, at);
        let next = self.attempt(at, low.top, low.below + low.above);
        if next.over() {
            return next;
        }
        if low.top < at.left {
            let dist = low.above + Points(plan.a - plan.c) - low.below;
            return next.attempt(at, low.top + Hits(1), dist);
        }
        next
    }

    // All settings of the middles: the counts of each place from 0 up, that of n300 outermost.
    pub fn each_n300(self, plan: Plan, at: Setting) -> Best
        requires { PointsFit plan at × Ready plan (each_n300 plan at) self }
        ensures { view result ≡ Walk.settle plan.target.0 (each_n300 plan at) (view self) }
    {
        let mut best = self;
        for n300 in 0..plan.n300.turns(at.left).0 {
            let n300 = Hits(n300);
            let outer = Setting {
                n300,
                ..at.set(plan.n300, n300)
            };
            for n200 in 0..plan.n200.turns(outer.left).0 {
                let n200 = Hits(n200);
                let inner = Setting {
                    n200,
                    ..outer.set(plan.n200, n200)
                };
                for n100 in 0..plan.n100.turns(inner.left).0 {
                    if best.over() {
                        return best;
                    }
                    let n100 = Hits(n100);
                    let here = Setting {
                        n100,
                        ..inner.set(plan.n100, n100)
                    };
                    best = best.both(plan, here);
                }
            }
        }
        best
    }
}
