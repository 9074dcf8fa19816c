// The charts of a relay as they are handed over, three numbers each (objects, holds, misses), and the checks that come before its pool.
#![tactic(auto)]

ghost use Rattle.std.specs.Prelude.{◌≡◌, ◌||◌, ◌<◌};
ghost use Rattle.score_state.specs.Answer.{status_of, answer_of};
ghost use Rattle.inspect.specs.Inspect.{acc_of};
ghost use Rattle.inspect.specs.Checks.{Domain};
ghost use Rattle.relay_laws.specs.Plays.{play_at, chart_count, plays_of, play_query};
ghost use Rattle.relay_laws.specs.Checks.{any_of, bad_count, over_chart, over_misses, relay_stop, Playable};

use inspect::{Accuracy, Chart, Query};
use refusals::Refusal;
use score_state::CAP;

// The chart at place k, played to its end, as a query: its misses are given, and no other count.
pub fn play_query(classic: bool, plays: &[u32], k: usize) -> Query
    requires { k < chart_count plays.now }
    ensures { result ≡ play_query classic (play_at plays.now k) }
{
    let at = 3 * k;
    Query {
        chart: Chart {
            n_objects: plays[at],
            n_hold_notes: plays[at + 1],
        },
        method: 3,
        priority: 0,
        classic,
        presence: inspect::MISSES,
        n320: 0,
        n300: 0,
        n200: 0,
        n100: 0,
        n50: 0,
        misses: plays[at + 2],
        passed: 0,
        holds: None,
        acc: Accuracy::Absent,
    }
}

// A relay's charts, three numbers each, none of them over.
#[derive(Clone, Copy)]
pub struct Plays<'a> {
    pub classic: bool,
    pub numbers: &'a [u32],
    ghost playable: { Playable numbers.now },
}

impl Plays<'_> {
    // How many charts there are.
    pub fn count(self) -> usize
        ensures { result ≡ chart_count self.entry.numbers.now }
    {
        self.numbers.len() / 3
    }

    // The chart at place k as a query.
    pub fn query(self, k: usize) -> Query
        requires { k < chart_count self.numbers.now }
        ensures query { result ≡ play_query self.entry.classic (play_at self.entry.numbers.now k) }
        ensures domain { Domain result }
    {
        play_query(self.classic, self.numbers, k)
    }
}

// Whether 7 stops one of the charts, and whether 10 does.
#[derive(Clone, Copy, Default)]
struct Over {
    chart: bool,
    misses: bool,
}

impl Over {
    // Those of the charts before k, and the chart at k.
    fn with_chart(self, plays: &[u32], k: usize) -> Over
        requires { k < chart_count plays.now }
        ensures { (result.chart ≡ (self.chart || over_chart (play_at plays.now k))) × (result.misses ≡ (self.misses || over_misses (play_at plays.now k))) }
    {
        let at = 3 * k;
        Over {
            chart: self.chart | inspect::chart_over(plays[at], plays[at + 1]),
            misses: self.misses | (plays[at + 2] > CAP),
        }
    }

    // Of all charts.
    fn of(plays: &[u32]) -> Over
        ensures { (result.chart ≡ any_of over_chart (plays_of plays.now)) × (result.misses ≡ any_of over_misses (plays_of plays.now)) }
    {
        let mut over = Over::default();
        for k in 0..plays.len() / 3 {
            over = over.with_chart(plays, k);
        }
        over
    }
}

// 21, of so many numbers.
#[tactic(auto, unfolding(relay_laws::specs::Checks::bad_count))]
fn bad_count(numbers: usize) -> bool
    ensures { result ≡ bad_count numbers }
{
    numbers % 3 != 0 || numbers / 3 < 2 || numbers / 3 > 8
}

// The checks before 13 for an output of so many numbers, in order 21, 5, 7, 10, 11: the first that stops the relay is told.
#[tactic(auto, unfolding(relay_laws::specs::Checks::relay_stop))]
pub fn check(acc: Accuracy, plays: &[u32], room: usize) -> Result<(), Refusal>
    ensures { status_of (answer_of result) ≡ relay_stop (acc_of acc) plays.now room }
{
    if bad_count(plays.len()) {
        return Err(Refusal::RelayCount);
    }
    if room < 1 + 6 * (plays.len() / 3) {
        return Err(Refusal::Short);
    }
    let over = Over::of(plays);
    if over.chart {
        return Err(Refusal::ChartOver);
    }
    if over.misses {
        return Err(Refusal::CountOver);
    }
    if inspect::acc_outside(acc) {
        return Err(Refusal::AccOutside);
    }
    Ok(())
}
