// ignore_acc.rs: the counts by priority alone; the accuracy plays no part.
#![tactic(auto)]

ghost use Rattle.std.specs.Prelude.{◌≡◌, ◌≤◌};
ghost use Rattle.units.specs.Limits.{most_hits};
ghost use Rattle.score_state.specs.Given.{option_of};
ghost use Rattle.score_state.specs.Points as Points;
ghost use Rattle.inspect.specs.Inspect as Inspect;
ghost use Rattle.inspect.specs.Inspect.{inspect_of};
ghost use Rattle.inspect.specs.Checks.{Domain};
ghost use Rattle.ignore_acc.specs.IgnoreAcc.{assign_specified, unwrap_or_else, five_sum, add_shortfall, ignore_acc};
ghost use Rattle.ignore_acc.specs.Code.{hits_of, assigned_of, filled_of, five_of, reversed, second_pass_of, passes_of, best_counts, worst_counts};

use inspect::{N50, N100, N200, N300, N320, Query};
use score_state::HitResults;
use units::Hits;

// A count, and what then remains.
#[derive(Clone, Copy)]
struct Taken<C> {
    count: C,
    remain: Hits,
}

// What a count that may be missing was assigned.
type Assigned = Taken<Option<Hits>>;

// What a count is filled with.
type Filled = Taken<Hits>;

// Five of a kind in priority order: from n320 on in the best case, from n50 on in the worst.
#[derive(Clone, Copy)]
struct InOrder<T> {
    first: T,
    second: T,
    third: T,
    fourth: T,
    fifth: T,
}

impl<T: Copy> InOrder<T> {
    // The other case's order.
    fn reversed(self) -> InOrder<T>
        ensures { result ≡ reversed self }
    {
        InOrder {
            first: self.fifth,
            second: self.fourth,
            third: self.third,
            fourth: self.second,
            fifth: self.first,
        }
    }
}

// Five counts, and what still remains.
#[derive(Clone, Copy)]
struct Five {
    counts: InOrder<Hits>,
    remain: Hits,
}

impl Assigned {
    // Helper to assign a specified value.
    #[tactic(auto, using(units::proofs::Order::min_of), unfolding(crate::specs::IgnoreAcc::assign_specified))]
    fn assign_specified(mut self, specified: Option<u32>) -> Assigned
        ensures { assigned_of result ≡ assign_specified (option_of specified) self.remain.0 }
    {
        match specified {
            Some(n) => {
                let assigned = Hits(n).min(self.remain);
                self.count = Some(assigned);
                self.remain = self.remain - assigned;
            }
            None => self.count = None,
        }
        self
    }
}

impl Filled {
    // `unwrap_or_else(|| mem::replace(&mut remain, 0))`
    #[tactic(auto, unfolding(crate::specs::IgnoreAcc::unwrap_or_else))]
    fn unwrap_or_else(mut self, assigned: Option<Hits>) -> Filled
        ensures { filled_of result ≡ unwrap_or_else (hits_of assigned) self.remain.0 }
    {
        match assigned {
            Some(n) => self.count = n,
            None => {
                self.count = self.remain;
                self.remain = Hits(0);
            }
        }
        self
    }
}

// Second pass: fill first unspecified with remainder.
#[tactic(auto, unfolding(crate::specs::IgnoreAcc::second_pass))]
fn second_pass(assigned: InOrder<Assigned>) -> Five
    ensures { five_of result ≡ second_pass_of assigned }
{
    let start = Filled {
        count: Hits(0),
        remain: assigned.fifth.remain,
    };
    let first = start.unwrap_or_else(assigned.first.count);
    let second = first.unwrap_or_else(assigned.second.count);
    let third = second.unwrap_or_else(assigned.third.count);
    let fourth = third.unwrap_or_else(assigned.fourth.count);
    let fifth = fourth.unwrap_or_else(assigned.fifth.count);
    let counts = InOrder {
        first: first.count,
        second: second.count,
        third: third.count,
        fourth: fourth.count,
        fifth: fifth.count,
    };
    Five {
        counts,
        remain: fifth.remain,
    }
}

impl Five {
    // The shortfall, where all five are given, goes to the first: `n320 += remain`, or n50.
    #[tactic(auto, unfolding(crate::specs::IgnoreAcc::add_shortfall))]
    fn add_shortfall(mut self) -> Five
        requires { five_sum (five_of self) ≤ most_hits }
        ensures { five_of result ≡ add_shortfall (five_of self) }
    {
        self.counts.first = self.counts.first + self.remain;
        self.remain = Hits(0);
        self
    }

    // In the order of the counts, from n320 on.
    fn best_case(self, misses: Hits) -> HitResults
        ensures { result ≡ best_counts (five_of self) misses.0 }
    {
        let n = self.counts;
        HitResults::of(n.first, n.second, n.third, n.fourth, n.fifth, misses)
    }

    // From n50 on.
    fn worst_case(self, misses: Hits) -> HitResults
        ensures { result ≡ worst_counts (five_of self) misses.0 }
    {
        let n = self.counts;
        HitResults::of(n.fifth, n.fourth, n.third, n.second, n.first, misses)
    }
}

// First pass: assign specified values in priority order; then the second, and the shortfall.
#[tactic(auto, unfolding(crate::specs::IgnoreAcc::passes))]
fn passes(remain: Hits, specified: InOrder<Option<u32>>) -> Five
    requires { remain.0 ≤ most_hits }
    ensures { five_of result ≡ passes_of remain.0 specified }
{
    let start = Assigned {
        count: None,
        remain,
    };
    let first = start.assign_specified(specified.first);
    let second = first.assign_specified(specified.second);
    let third = second.assign_specified(specified.third);
    let fourth = third.assign_specified(specified.fourth);
    let fifth = fourth.assign_specified(specified.fifth);
    let assigned = InOrder {
        first,
        second,
        third,
        fourth,
        fifth,
    };
    second_pass(assigned).add_shortfall()
}

// Method 0, IgnoreAccuracy: the definition's counts, which sum to the total hits.
#[tactic(auto, using(crate::proofs::Laws::sum_of), unfolding(crate::specs::IgnoreAcc::ignore_acc, crate::specs::IgnoreAcc::best_case, crate::specs::IgnoreAcc::worst_case, crate::specs::IgnoreAcc::by_priority))]
pub fn generate_hitresults(q: Query) -> HitResults
    requires { Domain q }
    ensures value { result ≡ ignore_acc (inspect_of q) }
    ensures result_value { Points.total_hits result ≡ Inspect.total_hits (inspect_of q) }
{
    let misses = inspect::misses(q);
    let remain = inspect::remain(q);
    let n320 = inspect::given(q.presence, N320, q.n320);
    let n300 = inspect::given(q.presence, N300, q.n300);
    let n200 = inspect::given(q.presence, N200, q.n200);
    let n100 = inspect::given(q.presence, N100, q.n100);
    let n50 = inspect::given(q.presence, N50, q.n50);
    let counts = InOrder {
        first: n320,
        second: n300,
        third: n200,
        fourth: n100,
        fifth: n50,
    };
    match q.priority {
        0 => passes(remain, counts).best_case(misses),
        _ => passes(remain, counts.reversed()).worst_case(misses),
    }
}
