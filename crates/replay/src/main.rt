// Replays a fixed list of the Rust's answers (Nearest's are a plain walk's), which `tests/beside/run list` wrote, and prints how many
// differ.
// A record has 92 bytes: kind, priority, classic, presence; then u32s: objects, holds, n320, n300, n200, n100, n50, misses, passed;
// at 40 the accuracy's f64; then u32s again: 1 where the holds passed are given, and their number; and from 56 on the expected status
// and values, left by its bits.
#![tactic(auto)]

ghost use Rattle.std.specs.Prelude.{◌<◌};

use generated::Generated;
use inspect::{Chart, Query};
use little_endian::{f64_of, u32_at, u64_at};
use refusals::Refusal;
use score_state::HitResults;
use std::io::Write;
use std::{fmt, io};

type Record = [u8; 92];

// What a record holds the Rust's answer of.
#[derive(Clone, Copy, PartialEq, Eq)]
enum Kind {
    Accuracy,
    Target,
    IgnoreAcc,
    Fast,
    Closest,
    Nearest,
}

impl Kind {
    fn of(record: &Record) -> Option<Kind> {
        match record[0] {
            0 => Some(Kind::Accuracy),
            1 => Some(Kind::Target),
            2 => Some(Kind::IgnoreAcc),
            3 => Some(Kind::Fast),
            4 => Some(Kind::Closest),
            5 => Some(Kind::Nearest),
            _ => None,
        }
    }
}

impl fmt::Display for Kind {
    fn fmt<W: fmt::Write>(&self, f: &mut fmt::Formatter<W>) -> fmt::Result {
        f.write_str(match self {
            Kind::Accuracy => "accuracy",
            Kind::Target => "target",
            Kind::IgnoreAcc => "ignore_acc",
            Kind::Fast => "fast",
            Kind::Closest => "closest",
            Kind::Nearest => "nearest",
        })
    }
}

// The six counts of a record.
fn counts_of(record: &Record) -> HitResults {
    HitResults {
        n320: u32_at(record, 12),
        n300: u32_at(record, 16),
        n200: u32_at(record, 20),
        n100: u32_at(record, 24),
        n50: u32_at(record, 28),
        misses: u32_at(record, 32),
    }
}

// The query of a record; the method stays a number, as the direct call takes it. Where the acc bit of presence is 0, the accuracy is absent.
fn query_of(record: &Record, method: u8) -> Query {
    let presence = record[3];
    let given = inspect::is_given(presence, inspect::ACC);
    let holds_given = if u32_at(record, 48) == 1 { 1 } else { 0 };
    let counts = counts_of(record);
    Query {
        chart: Chart {
            n_objects: u32_at(record, 4),
            n_hold_notes: u32_at(record, 8),
        },
        method,
        priority: record[1],
        classic: record[2] == 1,
        presence,
        n320: counts.n320,
        n300: counts.n300,
        n200: counts.n200,
        n100: counts.n100,
        n50: counts.n50,
        misses: counts.misses,
        passed: u32_at(record, 36),
        holds: inspect::holds_of(holds_given, u32_at(record, 52)),
        acc: inspect::acc_by(given, f64_of(u64_at(record, 40))),
    }
}

// Whether the expected value k of a record is n.
fn expects(record: &Record, k: usize, n: u32) -> bool
    requires { k < 9 }
{
    u32_at(record, 56 + 4 * k) == n
}

// Whether the expected status is that of a refusal.
fn expects_refusal(record: &Record, refusal: Refusal) -> bool {
    expects(record, 0, refusal.into())
}

// The six counts are the input, and the value is an f64.
fn accuracy_agrees(record: &Record) -> bool {
    match score_state::accuracy(counts_of(record), record[2] == 1) {
        Ok(x) => expects(record, 0, 0) && x == f64_of(u64_at(record, 60)),
        Err(refusal) => expects_refusal(record, refusal),
    }
}

// Total hits, misses and the rounded target.
fn target_agrees(record: &Record) -> bool {
    match rounded_target::rounded_target(query_of(record, 0)) {
        Ok(t) => {
            expects(record, 0, 0)
                && expects(record, 1, t.total_hits.0)
                && expects(record, 2, t.misses.0)
                && expects(record, 3, t.target.0)
        }
        Err(refusal) => expects_refusal(record, refusal),
    }
}

// Whether the expected values are these counts, this tried and this left.
fn values_agree(record: &Record, g: Generated) -> bool {
    expects(record, 1, g.counts.n320)
        && expects(record, 2, g.counts.n300)
        && expects(record, 3, g.counts.n200)
        && expects(record, 4, g.counts.n100)
        && expects(record, 5, g.counts.n50)
        && expects(record, 6, g.counts.misses)
        && expects(record, 7, g.tried)
        && expects(record, 8, points_left::bits_of(g.left))
}

// The direct call, methods 0 to 3.
fn generate_agrees(record: &Record, method: u8) -> bool {
    match generate::generate(query_of(record, method)) {
        Ok(g) => expects(record, 0, 0) && values_agree(record, g),
        Err(refusal) => expects_refusal(record, refusal),
    }
}

// Whether our answer to a record of this kind is the expected one.
fn agrees(record: &Record, kind: Kind) -> bool {
    match kind {
        Kind::Accuracy => accuracy_agrees(record),
        Kind::Target => target_agrees(record),
        Kind::IgnoreAcc => generate_agrees(record, 0),
        Kind::Fast => generate_agrees(record, 1),
        Kind::Closest => generate_agrees(record, 2),
        Kind::Nearest => generate_agrees(record, 3),
    }
}

// A line for one kind: its records and how many differ.
fn report<O: Write>(output: &mut O, records: &[Record], kind: Kind) -> io::Result<()> {
    let run = records.iter().filter(|r| Kind::of(r) == Some(kind)).count();
    let differ = records
        .iter()
        .filter(|r| Kind::of(r) == Some(kind) && !agrees(r, kind))
        .count();
    writeln!(output, "{kind}: {run} records, {differ} differ")
}

fn report_all<O: Write>(output: &mut O, records: &[Record]) -> io::Result<()> {
    report(output, records, Kind::Accuracy)?;
    report(output, records, Kind::Target)?;
    report(output, records, Kind::IgnoreAcc)?;
    report(output, records, Kind::Fast)?;
    report(output, records, Kind::Closest)?;
    report(output, records, Kind::Nearest)
}

fn main(rt: HostRuntime) -> io::Result<()> {
    let mut list = [0u8; 262144];
    let n = streams::read_full(&mut rt.stdin(), &mut list);
    report_all(&mut rt.stdout(), list[..n].as_chunks().0)
}
