// Records as numbers: a section's count of 4 bytes, a sheet's chart of 8 and its query's row of 48, and five weights of 20.
#![tactic(auto, unfolding(crate::specs::Records::chart_at, crate::specs::Records::counts_at, crate::specs::Records::row_at, crate::specs::Records::weights_at))]

ghost use Rattle.std.specs.Prelude.{◌≡◌, cond, ◌+◌, ◌*◌, ◌≤◌, eqb, length};
ghost use Rattle.little_endian.specs.Bytes.{u32_at};
ghost use Rattle.weighting.specs.declared.Scoring.TheVariants.{Standard, Own};
ghost use Rattle.records.specs.Records.{chart_at, counts_at, row_at, weights_at};

use inspect::Chart;
use score_state::{HitResults, Weights};
use weighting::Scoring;

// A query as it stands in the sheet: holds_given is byte 6, zero byte 7, acc the bits of its f64, holds_passed the last field. The bytes stay
// numbers: checks 8 and 9 are of any byte (`row_checks::unknown_row`, `fields_left`).
#[derive(Clone, Copy)]
pub struct Row {
    pub chart: u32,
    pub method: u8,
    pub priority: u8,
    pub classic: u8,
    pub presence: u8,
    pub holds_given: u8,
    pub zero: u8,
    pub n320: u32,
    pub n300: u32,
    pub n200: u32,
    pub n100: u32,
    pub n50: u32,
    pub misses: u32,
    pub passed: u32,
    pub acc: u64,
    pub holds_passed: u32,
}

pub fn read_count(s: &[u8], at: usize) -> usize
    requires { at + 4 ≤ length s.now }
    ensures { result ≡ u32_at s.now at }
{
    little_endian::u32_at(s, at) as usize
}

pub fn read_chart(s: &[u8], at: usize) -> Chart
    requires { at + 8 ≤ length s.now }
    ensures { result ≡ chart_at s.now at }
{
    let objects = little_endian::u32_at(s, at);
    let holds = little_endian::u32_at(s, at + 4);
    Chart {
        n_objects: objects,
        n_hold_notes: holds,
    }
}

// The five counts and misses of the query at a place.
fn read_counts(s: &[u8], at: usize) -> HitResults
    requires { at + 48 ≤ length s.now }
    ensures { result ≡ counts_at s.now at }
{
    let n320 = little_endian::u32_at(s, at + 8);
    let n300 = little_endian::u32_at(s, at + 12);
    let n200 = little_endian::u32_at(s, at + 16);
    let n100 = little_endian::u32_at(s, at + 20);
    let n50 = little_endian::u32_at(s, at + 24);
    let misses = little_endian::u32_at(s, at + 28);
    HitResults {
        n320,
        n300,
        n200,
        n100,
        n50,
        misses,
    }
}

pub fn read_row(s: &[u8], at: usize) -> Row
    requires { at + 48 ≤ length s.now }
    ensures { result ≡ row_at s.now at }
{
    let chart = little_endian::u16_at(s, at);
    let counts = read_counts(s, at);
    let passed = little_endian::u32_at(s, at + 32);
    let acc = little_endian::u64_at(s, at + 36);
    let holds_passed = little_endian::u32_at(s, at + 44);
    Row {
        chart,
        method: s[at + 2],
        priority: s[at + 3],
        classic: s[at + 4],
        presence: s[at + 5],
        holds_given: s[at + 6],
        zero: s[at + 7],
        n320: counts.n320,
        n300: counts.n300,
        n200: counts.n200,
        n100: counts.n100,
        n50: counts.n50,
        misses: counts.misses,
        passed,
        acc,
        holds_passed,
    }
}

// Five weights, from n320 to n50.
pub fn read_weights(s: &[u8], at: usize) -> Weights
    requires { at + 20 ≤ length s.now }
    ensures { result ≡ weights_at s.now at }
{
    let n320 = little_endian::u32_at(s, at);
    let n300 = little_endian::u32_at(s, at + 4);
    let n200 = little_endian::u32_at(s, at + 8);
    let n100 = little_endian::u32_at(s, at + 12);
    let n50 = little_endian::u32_at(s, at + 16);
    Weights {
        n320,
        n300,
        n200,
        n100,
        n50,
    }
}

// By which weights a sheet's rows are scored: own sets of weights, none or one, start at a place.
pub fn read_scoring(s: &[u8], at: usize, own: usize) -> Scoring
    requires { at + 20 * own ≤ length s.now }
    ensures { result ≡ cond (eqb own 0) Standard (Own (weights_at s.now at)) }
{
    if own == 0 {
        return Scoring::Standard;
    }
    Scoring::Own(read_weights(s, at))
}
