// inspect.rs: a query, its total hits, misses and remaining hits, the rounded target, and the checks that every method shares.
#![tactic(auto)]

ghost use Rattle.std.specs.Prelude.{◌≡◌, cond, ◌≤◌, ◌<◌, ◌*◌};
ghost use Rattle.units.specs.Limits.{most_hits, most_pooled_hits, most_weight};
ghost use Rattle.score_state.specs.Answer.{status_of, answer_of};
ghost use Rattle.score_state.specs.Given.{option_of};
ghost use Rattle.inspect.specs.Presence.{has, given, lacking, missing_of, unwrap_or_zero};
ghost use Rattle.inspect.specs.Inspect as Inspect;
ghost use Rattle.inspect.specs.Inspect.{inspect_of, acc_of, acc_by, holds_by};
ghost use Rattle.inspect.specs.Target as Target;
ghost use Rattle.inspect.specs.Checks.{chart_over, unknown_code, over_cap, count_over, acc_outside, stop_of, Domain};

use refusals::Refusal;
use rounding::Acc;
use score_state::{CAP, HitResults};
use units::{Hits, Points};

// The attributes of a chart.
#[derive(Clone, Copy)]
pub struct Chart {
    pub n_objects: u32,
    pub n_hold_notes: u32,
}

// The accuracy is either given with its f64 or absent. It is no `Option`: document 01, Language forms, names this enum.
#[derive(Clone, Copy)]
pub enum Accuracy {
    Given(f64),
    Absent,
}

// A query. presence has document 01's bits, from n320 (1) to passed (128); acc's own bit is not looked at, `Accuracy` says it. The counts stay
// numbers beside those bits, and method and priority numbers: so a direct call takes them (document 01, Option, Vec and the trait recast), and
// check 8 is of the numbers. holds is how many holds were passed, where the play was broken off; without it they count in full.
#[derive(Clone, Copy)]
pub struct Query {
    pub chart: Chart,
    pub method: u8,
    pub priority: u8,
    pub classic: bool,
    pub presence: u8,
    pub n320: u32,
    pub n300: u32,
    pub n200: u32,
    pub n100: u32,
    pub n50: u32,
    pub misses: u32,
    pub passed: u32,
    pub holds: Option<u32>,
    pub acc: Accuracy,
}

// The bits of presence.
pub const N320: u8 = 0b0000_0001;

pub const N300: u8 = 0b0000_0010;

pub const N200: u8 = 0b0000_0100;

pub const N100: u8 = 0b0000_1000;

pub const N50: u8 = 0b0001_0000;

pub const MISSES: u8 = 0b0010_0000;

pub const ACC: u8 = 0b0100_0000;

pub const PASSED: u8 = 0b1000_0000;

// The holds passed where they are given: 0 says that they are not, as in a row and in C's bool. A bool here would be masked anew on
// the stack, and C's call could not hand its arguments on as they stand.
pub fn holds_of(given: u8, n: u32) -> Option<u32>
    ensures { result ≡ holds_by given n }
{
    if given == 0 { None } else { Some(n) }
}

// The accuracy where it is given.
pub fn acc_by(given: bool, acc: f64) -> Accuracy
    ensures { result ≡ acc_by given acc }
{
    if given {
        Accuracy::Given(acc)
    } else {
        Accuracy::Absent
    }
}

// How many of the five counts are missing, as the generators tell it apart.
#[derive(Clone, Copy)]
pub enum Missing {
    Nothing,
    One,
    Two,
    ThreePlus,
}

// The five-way match over the counts, as one over the presence number.
pub fn missing_of(presence: u8) -> Missing
    ensures { result ≡ missing_of (lacking presence) }
{
    match presence % 32 {
        0b11111 => Missing::Nothing,
        0b11110 | 0b11101 | 0b11011 | 0b10111 | 0b01111 => Missing::One,
        0b11100
        | 0b11010
        | 0b10110
        | 0b01110
        | 0b11001
        | 0b10101
        | 0b01101
        | 0b10011
        | 0b01011
        | 0b00111 => Missing::Two,
        _ => Missing::ThreePlus,
    }
}

// Whether the bit with this place value is set.
pub fn is_given(presence: u8, place: u8) -> bool
    requires { 0 < place }
    ensures { result ≡ has presence place }
{
    presence / place % 2 == 1
}

// A number that is given by the bit with this place value, or missing.
pub fn given(presence: u8, place: u8, n: u32) -> Option<u32>
    requires { 0 < place }
    ensures { option_of result ≡ given (has presence place) n }
{
    if is_given(presence, place) {
        Some(n)
    } else {
        None
    }
}

// One of two numbers, as the count with this place value is missing or given.
pub fn pick(presence: u8, place: u8, missing: u32, given: u32) -> u32
    requires { 0 < place }
    ensures { result ≡ cond (has presence place) given missing }
{
    if is_given(presence, place) {
        given
    } else {
        missing
    }
}

// The five counts with 0 for a missing one, and the misses as they are.
pub fn unwrap_or_zero(presence: u8, counts: HitResults) -> HitResults
    ensures { result ≡ unwrap_or_zero presence counts }
{
    HitResults {
        n320: pick(presence, N320, 0, counts.n320),
        n300: pick(presence, N300, 0, counts.n300),
        n200: pick(presence, N200, 0, counts.n200),
        n100: pick(presence, N100, 0, counts.n100),
        n50: pick(presence, N50, 0, counts.n50),
        misses: counts.misses,
    }
}

// The smaller of a number passed and all there is: all of it where no number is given.
#[tactic(auto, unfolding(crate::specs::Inspect::shortened))]
fn shortened(passed: Option<u32>, all: Hits) -> Hits
    ensures { (result.0 ≡ Inspect.shortened (option_of passed) all.0) × (result.0 ≤ all.0) }
{
    match passed {
        Some(n) => Hits(n).min(all),
        None => all,
    }
}

// passed shortens the objects alone; the hold notes have their own number.
pub fn total_hits(q: Query) -> Hits
    requires { Domain q }
    ensures { (result.0 ≡ Inspect.total_hits (inspect_of q)) × (result.0 ≤ most_hits) }
{
    let passed = given(q.presence, PASSED, q.passed);
    let objects = shortened(passed, Hits(q.chart.n_objects));
    let hold_notes = shortened(q.holds, Hits(q.chart.n_hold_notes));
    if q.classic {
        objects
    } else {
        objects + hold_notes
    }
}

// The given misses, at most the total hits.
#[tactic(auto, unfolding(crate::specs::Inspect::misses, crate::specs::Inspect::capped_misses))]
pub fn misses(q: Query) -> Hits
    requires { Domain q }
    ensures { (result.0 ≡ Inspect.misses (inspect_of q)) × (result.0 ≤ Inspect.total_hits (inspect_of q)) }
{
    let total = total_hits(q);
    match given(q.presence, MISSES, q.misses) {
        Some(n) => Hits(n).min(total),
        None => Hits(0),
    }
}

// The hits that are no misses.
pub fn remain(q: Query) -> Hits
    requires { Domain q }
    ensures { (result.0 ≡ Inspect.remain (inspect_of q)) × (result.0 ≤ most_hits) }
{
    total_hits(q) - misses(q)
}

// The rounded target: acc times (w times total), one f64 product, to the nearest whole number. total is a play's, or a relay's.
pub fn target_of(acc: Acc, w: u32, total: Hits) -> Points
    requires { (w ≤ most_weight) × (total.0 ≤ most_pooled_hits) }
    ensures { (result.0 ≡ Target.target acc.value w total.0) × (result.0 ≤ w * total.0) }
{
    (total * w).rounded_product(acc)
}

// The most objects and the most hold notes of a chart.
const CHART_LIMIT: u32 = 100_000;

// Check 7, of a chart's two fields. The chart itself is not handed over: its copy would be read as one number of 64 bits right
// after its halves were written, and the processor waits there.
#[tactic(auto, unfolding(crate::specs::Checks::chart_over))]
pub fn chart_over(objects: u32, holds: u32) -> bool
    ensures { result ≡ chart_over (record { n_objects = objects; n_hold_notes = holds }) }
{
    objects > CHART_LIMIT || holds > CHART_LIMIT
}

// Check 8; classic is a boolean here.
#[tactic(auto, unfolding(crate::specs::Checks::unknown_code))]
fn unknown_code(method: u8, priority: u8) -> bool
    ensures { result ≡ unknown_code method priority }
{
    method > 3 || priority > 1
}

// A given count over the cap.
#[tactic(auto, unfolding(crate::specs::Checks::over_cap))]
fn over_cap(given: Option<u32>) -> bool
    ensures { result ≡ over_cap (option_of given) }
{
    match given {
        Some(n) => n > CAP,
        None => false,
    }
}

// Check 10.
#[tactic(auto, unfolding(crate::specs::Checks::count_over))]
fn count_over(q: Query) -> bool
    ensures { result ≡ count_over (inspect_of q) }
{
    let p = q.presence;
    over_cap(given(p, N320, q.n320))
        || over_cap(given(p, N300, q.n300))
        || over_cap(given(p, N200, q.n200))
        || over_cap(given(p, N100, q.n100))
        || over_cap(given(p, N50, q.n50))
        || over_cap(given(p, MISSES, q.misses))
}

// Check 11: a comparison with NaN is false, so NaN is outside; -0.0 is in.
#[tactic(auto, unfolding(crate::specs::Checks::acc_outside))]
pub fn acc_outside(acc: Accuracy) -> bool
    ensures { result ≡ acc_outside (acc_of acc) }
{
    match acc {
        Accuracy::Given(x) => !(x >= 0.0 && x <= 1.0),
        Accuracy::Absent => false,
    }
}

// The checks that every method shares, in order 7, 8, 10, 11: the first that stops the query is told.
#[tactic(auto, unfolding(crate::specs::Checks::stop_of))]
pub fn check(q: Query) -> Result<(), Refusal>
    ensures { status_of (answer_of result) ≡ stop_of q }
{
    if chart_over(q.chart.n_objects, q.chart.n_hold_notes) {
        return Err(Refusal::ChartOver);
    }
    if unknown_code(q.method, q.priority) {
        return Err(Refusal::UnknownCode);
    }
    if count_over(q) {
        return Err(Refusal::CountOver);
    }
    if acc_outside(q.acc) {
        return Err(Refusal::AccOutside);
    }
    Ok(())
}
