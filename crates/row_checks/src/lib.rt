// The checks of a row: 7 to 9 and 19, and where the chart that it names stands (6).
#![tactic(auto, unfolding(crate::specs::RowChecks::left_over, crate::specs::RowChecks::holds_left, crate::specs::RowChecks::fields_left, crate::specs::RowChecks::unknown_row, crate::specs::RowChecks::own_unfit, crate::specs::RowChecks::row_stop))]

ghost use Rattle.std.specs.Prelude.{◌≡◌, cond, ◌<◌, ◌≤◌, ltb};
ghost use Rattle.score_state.specs.Answer.{status_of, answer_of};
ghost use Rattle.row_checks.specs.RowChecks.{left_over, holds_left, fields_left, unknown_row, own_unfit, row_stop};

use inspect::Chart;
use records::Row;
use refusals::Refusal;
use weighting::Scoring;

// A missing field that is not all zero bytes.
fn left_over(presence: u8, place: u8, nonzero: bool) -> bool
    requires { 0 < place }
    ensures { result ≡ left_over presence place nonzero }
{
    !inspect::is_given(presence, place) && nonzero
}

// A byte 6 that is neither 0 nor 1, or holds passed that are not all zero bytes where it is 0.
fn holds_left(given: u8, nonzero: bool) -> bool
    ensures { result ≡ holds_left given nonzero }
{
    (given == 0 && nonzero) || given > 1
}

// Check 9.
pub fn fields_left(row: Row) -> bool
    ensures { result ≡ fields_left row }
{
    let p = row.presence;
    left_over(p, inspect::N320, row.n320 > 0)
        || left_over(p, inspect::N300, row.n300 > 0)
        || left_over(p, inspect::N200, row.n200 > 0)
        || left_over(p, inspect::N100, row.n100 > 0)
        || left_over(p, inspect::N50, row.n50 > 0)
        || left_over(p, inspect::MISSES, row.misses > 0)
        || left_over(p, inspect::ACC, row.acc > 0)
        || left_over(p, inspect::PASSED, row.passed > 0)
        || holds_left(row.holds_given, row.holds_passed > 0)
        || row.zero > 0
}

// Check 8.
pub fn unknown_row(row: Row) -> bool
    ensures { result ≡ unknown_row row }
{
    row.method > 3 || row.priority > 1 || row.classic > 1
}

// Check 19: Fast and Closest have no own weights. The method stays the row's byte, of which check 8 speaks.
fn own_unfit(scoring: Scoring, method: u8) -> bool
    ensures { result ≡ own_unfit scoring method }
{
    match scoring {
        Scoring::Standard => false,
        Scoring::Own(_) => method == 1 || method == 2,
    }
}

// Checks 7 to 9 and 19 of a row and its chart, in this order: the first that stops the row is told.
pub fn check(row: Row, chart: Chart, scoring: Scoring) -> Result<(), Refusal>
    ensures { status_of (answer_of result) ≡ row_stop scoring row chart }
{
    if inspect::chart_over(chart.n_objects, chart.n_hold_notes) {
        return Err(Refusal::ChartOver);
    }
    if unknown_row(row) {
        return Err(Refusal::UnknownCode);
    }
    if fields_left(row) {
        return Err(Refusal::LeftOver);
    }
    if own_unfit(scoring, row.method) {
        return Err(Refusal::OwnUnfit);
    }
    Ok(())
}

// Where the chart that a row names stands among the n charts of a sheet; where it names none, a place whose chart check 6 leaves unused.
pub fn chart_index(row: Row, n: usize) -> usize
    requires { n ≤ 256 }
    ensures { (result ≡ cond (ltb row.chart n) row.chart 0) × (result < 256) }
{
    let index = row.chart as usize;
    if index < n { index } else { 0 }
}
