// Document 02, L9: one target over a relay of two to eight charts.
#![tactic(auto)]

ghost use Rattle.std.specs.Prelude.{◌≡◌, map, ◌+◌, ◌≤◌, length};
ghost use Rattle.units.specs.Limits.{most32, most_hits, most_pooled_hits};
ghost use Rattle.score_state.specs.Answer.{status_of, answer_of};
ghost use Rattle.score_state.specs.Lent.{lent, answered};
ghost use Rattle.score_state.specs.Points.{hits, perfect_weight, standard};
ghost use Rattle.inspect.specs.Inspect.{inspect_of, acc_of, total_hits, remain};
ghost use Rattle.inspect.specs.Checks.{Domain};
ghost use Rattle.inspect.specs.Target.{target};
ghost use Rattle.nearest_laws.specs.Nearest.{found};
ghost use Rattle.nearest.specs.Outcome.{found_of};
ghost use Rattle.relay_laws.specs.Plays.{chart_count, plays_of, total_of};
ghost use Rattle.relay_laws.specs.Pool.{all_missing};
ghost use Rattle.relay_laws.specs.Relay.{remains, relay_answer, IsRelay};

use inspect::{Accuracy, Query};
use nearest::Split;
use refusals::Refusal;
use relay_plays::Plays;
use rounding::Acc;
use units::Hits;

// The total hits of charts of a relay, and what remains of them.
#[derive(Clone, Copy)]
struct Pool {
    total: Hits,
    remain: Hits,
}

impl Pool {
    // With one chart more.
    fn with_chart(self, q: Query) -> Pool
        requires domain { Domain q }
        requires most_hits_bound { (self.total.0 + most_hits ≤ most32) × (self.remain.0 + most_hits ≤ most32) }
        ensures total_value { (result.total.0 ≡ self.total.0 + total_hits (inspect_of q)) × (result.total.0 ≤ self.total.0 + most_hits) }
        ensures remain_value { (result.remain.0 ≡ self.remain.0 + remain (inspect_of q)) × (result.remain.0 ≤ self.remain.0 + most_hits) }
    {
        Pool {
            total: self.total + inspect::total_hits(q),
            remain: self.remain + inspect::remain(q),
        }
    }

    // Of at most eight charts.
    fn of(plays: Plays) -> Pool
        requires { chart_count plays.numbers.now ≤ 8 }
        ensures total_value { (result.total.0 ≡ hits (map (total_of plays.entry.classic) (plays_of plays.entry.numbers.now))) × (result.total.0 ≤ most_pooled_hits) }
        ensures remain_value { (result.remain.0 ≡ hits (remains plays.entry.classic (plays_of plays.entry.numbers.now))) × (result.remain.0 ≤ most_pooled_hits) }
    {
        let mut pool = Pool {
            total: Hits(0),
            remain: Hits(0),
        };
        for k in 0..plays.count() {
            pool = pool.with_chart(plays.query(k));
        }
        pool
    }

    // Its nearest split.
    fn split(self, classic: bool, acc: Acc) -> Split
        requires { (self.total.0 ≤ most_pooled_hits) × (self.remain.0 ≤ most_pooled_hits) }
        ensures { found_of result ≡ found (standard classic) all_missing (target acc.value (perfect_weight classic) self.total.0) self.remain.0 }
    {
        let target = inspect::target_of(acc, score_state::perfect_weight(classic), self.total);
        nearest::all_missing(score_state::standard_weights(classic), self.remain, target)
    }
}

// plays has three numbers a chart, its objects, its holds and its misses: the charts are played to their end, and no other count is given.
// tried and six counts a chart stand in out at the end; or it is refused by 21, 5, 7, 10, 11 or 13, in that order, with out unchanged.
pub fn relay(classic: bool, acc: Accuracy, plays: &[u32], out: &mut [u32]) -> Result<(), Refusal>
    ensures equation { lent (status_of (answer_of result)) out.new ≡ answered (relay_answer classic (acc_of acc) plays.now (length out.old)) out.old }
    ensures relayed { status_of (answer_of result) ≡ 0 → IsRelay classic (acc_of acc) plays.now out.new }
{
    relay_plays::check(acc, plays, out.len())?;
    let Accuracy::Given(value) = acc else {
        return Err(Refusal::AccMissing);
    };
    let plays = Plays {
        classic,
        numbers: plays,
    };
    let split = Pool::of(plays).split(classic, Acc { value });
    out[0] = split.tried;
    relay_deal::deal_all(plays, split.counts, out);
    Ok(())
}
