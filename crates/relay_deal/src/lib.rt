// The pool of a relay dealt to its charts in order, best judgement first.
#![tactic(auto)]

ghost use Rattle.std.specs.Prelude.{◌≡◌, [], ◌∷◌, ◌++◌, map, ◌+◌, ◌-◌, ◌≤◌, ◌<◌, min, length};
ghost use Rattle.lists.specs.Lists.{put};
ghost use Rattle.nearest.specs.Outcome.{five_of};
ghost use Rattle.relay_laws.specs.Plays.{play_at, chart_count, plays_of, misses_of, remain_of};
ghost use Rattle.relay_laws.specs.Pool.{dealt, undealt, deals};
ghost use Rattle.relay_laws.specs.Checks.{numbers_for};
ghost use Rattle.relay_laws.specs.Relay.{remains, sixes};

use nearest::Five;
use relay_plays::Plays;
use units::Hits;

// What a chart with so much room takes of a count, what it leaves, and the room that it has then.
#[derive(Clone, Copy)]
struct Share {
    taken: Hits,
    left: Hits,
    room: Hits,
}

impl Share {
    fn of(count: Hits, room: Hits) -> Share
        ensures { (result.taken.0 ≡ min count.0 room.0) × (result.left.0 ≡ count.0 - room.0) × (result.room.0 ≡ room.0 - count.0) }
    {
        Share {
            taken: count.min(room),
            left: count.saturating_sub(room),
            room: room.saturating_sub(count),
        }
    }
}

// What a chart is dealt, and what is left for those behind it.
#[derive(Clone, Copy)]
struct Dealt {
    counts: Five,
    left: Five,
}

impl Dealt {
    // To a chart that has room for so many hits.
    fn of(left: Five, room: Hits) -> Dealt
        ensures { (five_of result.counts ≡ dealt (five_of left) room.0) × (five_of result.left ≡ undealt (five_of left) room.0) }
    {
        let n320 = Share::of(left.n320, room);
        let n300 = Share::of(left.n300, n320.room);
        let n200 = Share::of(left.n200, n300.room);
        let n100 = Share::of(left.n100, n200.room);
        let n50 = Share::of(left.n50, n100.room);
        Dealt {
            counts: Five {
                n320: n320.taken,
                n300: n300.taken,
                n200: n200.taken,
                n100: n100.taken,
                n50: n50.taken,
            },
            left: Five {
                n320: n320.left,
                n300: n300.left,
                n200: n200.left,
                n100: n100.left,
                n50: n50.left,
            },
        }
    }
}

// A chart's six numbers in place of those that stood there.
fn put_six(out: &mut [u32], at: usize, counts: Five, misses: Hits)
    requires { at + 6 ≤ length out.old }
    ensures { out.new ≡ put out.old at (five_of counts ++ (misses.0 ∷ [])) }
{
    out[at..at + 6].copy_from_slice(&[
        counts.n320.0,
        counts.n300.0,
        counts.n200.0,
        counts.n100.0,
        counts.n50.0,
        misses.0,
    ]);
}

// The chart at place k is dealt from what is left, and its six numbers are written; it gives what is left then.
fn deal_chart(plays: Plays, k: usize, left: Five, out: &mut [u32]) -> Five
    requires { (k < chart_count plays.numbers.now) × (numbers_for (k + 1) ≤ length out.old) }
    ensures result_value { five_of result ≡ undealt (five_of left) (remain_of plays.entry.classic (play_at plays.entry.numbers.now k)) }
    ensures out_after { out.new ≡ put out.old (numbers_for k) (dealt (five_of left) (remain_of plays.entry.classic (play_at plays.entry.numbers.now k)) ++ (misses_of plays.entry.classic (play_at plays.entry.numbers.now k) ∷ [])) }
{
    let q = plays.query(k);
    let dealt = Dealt::of(left, inspect::remain(q));
    put_six(out, 1 + 6 * k, dealt.counts, inspect::misses(q));
    dealt.left
}

// All charts, behind the first number of the output.
pub fn deal_all(plays: Plays, pool: Five, out: &mut [u32])
    requires { numbers_for (chart_count plays.numbers.now) ≤ length out.old }
    ensures { out.new ≡ put out.old 1 (sixes (deals (five_of pool) (remains plays.entry.classic (plays_of plays.entry.numbers.now))) (map (misses_of plays.entry.classic) (plays_of plays.entry.numbers.now))) }
{
    let mut left = pool;
    for k in 0..plays.count() {
        left = deal_chart(plays, k, left, out);
    }
}
