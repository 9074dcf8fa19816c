// The call that works a sheet.
#![tactic(auto)]

ghost use Rattle.std.specs.Prelude.{◌≡◌, ◌+◌, ◌*◌, ◌≤◌, length, IfOk};
ghost use Rattle.little_endian.specs.Bytes.{u32_at};
ghost use Rattle.score_state.specs.Answer.{status_of, answer_of};
ghost use Rattle.sheets_laws.specs.Sheets.{scoring_at, charts_stop, scoring_stop, queries_stop, sheet_stop, sheet_of};
ghost use Rattle.sheets_laws.specs.Demand3.{Demand3};
ghost use Rattle.sheets_laws.specs.RisingRows.{RisingRows};
ghost use Rattle.sheets.specs.Worked.{worked_of, WhenWorked, TotalsWritten};

use refusals::Refusal;
use totals::Totals;

// How many queries of a sheet were worked, and their totals.
#[derive(Clone, Copy)]
pub struct Worked {
    pub queries: u32,
    pub totals: Totals,
}

// The checks of the charts: the first that stops the sheet, or where the section ends.
#[tactic(auto, unfolding(sheets_laws::specs::Sheets::charts_stop))]
fn check_charts(sheet: &[u8]) -> Result<usize, Refusal>
    ensures refusal { status_of (answer_of result) ≡ charts_stop sheet.now }
    ensures end { IfOk result (λ end. (end ≡ scoring_at sheet.now) × (end ≤ 2052)) }
{
    let len = sheet.len();
    if len < 4 {
        return Err(Refusal::Cut);
    }
    let charts = records::read_count(sheet, 0);
    if charts > 256 {
        return Err(Refusal::ChartsOver);
    }
    let end = 4 + 8 * charts;
    if len < end {
        return Err(Refusal::Cut);
    }
    Ok(end)
}

// The checks of own weights, whose section starts at a place: the first that stops the sheet, or where the section ends.
#[tactic(auto, unfolding(sheets_laws::specs::Sheets::scoring_stop, sheets_laws::specs::Sheets::scoring_from))]
fn check_scoring(sheet: &[u8], at: usize) -> Result<usize, Refusal>
    requires { at ≤ 2052 }
    ensures refusal { status_of (answer_of result) ≡ scoring_stop sheet.now at }
    ensures end { IfOk result (λ end. (end ≡ at + 4 + 20 * u32_at sheet.now at) × (end ≤ 2076)) }
{
    let len = sheet.len();
    if len < at + 4 {
        return Err(Refusal::Cut);
    }
    let own = records::read_count(sheet, at);
    if own > 1 {
        return Err(Refusal::WeightsUnfit);
    }
    let end = at + 4 + 20 * own;
    if len < end {
        return Err(Refusal::Cut);
    }
    let scoring = records::read_scoring(sheet, at + 4, own);
    if weighting::is_allowed(scoring) {
        Ok(end)
    } else {
        Err(Refusal::WeightsUnfit)
    }
}

// The checks of the queries, whose section starts at a place, and of an output of this many bytes: the first that stops the sheet.
#[tactic(auto, unfolding(sheets_laws::specs::Sheets::queries_stop))]
fn check_queries(sheet: &[u8], at: usize, room: usize) -> Result<(), Refusal>
    requires { at ≤ 2076 }
    ensures { status_of (answer_of result) ≡ queries_stop sheet.now at room }
{
    let len = sheet.len();
    if len < at + 4 {
        return Err(Refusal::Cut);
    }
    let queries = records::read_count(sheet, at);
    if queries > 1024 {
        return Err(Refusal::QueriesOver);
    }
    let end = at + 4 + 48 * queries;
    if len < end {
        return Err(Refusal::Cut);
    }
    if end < len {
        return Err(Refusal::Followed);
    }
    if room < 36 * queries {
        return Err(Refusal::Short);
    }
    Ok(())
}

// The checks of a sheet, section by section, for an output of this many bytes: the first that stops it is told.
pub fn check(sheet: &[u8], room: usize) -> Result<(), Refusal>
    ensures { status_of (answer_of result) ≡ sheet_stop sheet.now room }
{
    let charts_end = check_charts(sheet)?;
    let scoring_end = check_scoring(sheet, charts_end)?;
    check_queries(sheet, scoring_end, room)
}

// Works every query of a sheet and writes its answer, 36 bytes each; a sheet that a check stops leaves the output unchanged.
pub fn work_sheet(sheet: &[u8], out: &mut [u8]) -> Result<Worked, Refusal>
    ensures equation { worked_of result out.new ≡ sheet_of sheet.now out.old }
    ensures totals { TotalsWritten result out.new }
    ensures demand3 { WhenWorked result (Demand3 sheet.now out.new) }
    ensures rising { WhenWorked result (RisingRows sheet.now out.new) }
{
    // Named, so that the edit stopped_sheet_worked leaves its goals their names.
    let checked = check(sheet, out.len());
    checked?;
    let queries = sheet_reader::work_accepted(sheet, out);
    let worked = Worked {
        queries: queries as u32,
        totals: totals::totals_of(out, queries),
    };
    Ok(worked)
}
