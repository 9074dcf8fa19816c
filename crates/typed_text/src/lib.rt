// The text of a sheet: what is typed to get it.
#![tactic(auto)]

ghost use Rattle.std.specs.Prelude.{◌≡◌, ◌+◌, ◌≤◌, ◌<◌, length};
ghost use Rattle.lists.specs.Lists.{joined};
ghost use Rattle.text.specs.Written.{HasRoom, Gained};
ghost use Rattle.score_state.specs.Answer.{status_of, answer_of};
ghost use Rattle.typed_text.specs.SheetText.{stop_of, row_fault, fault_at, line_at, Placed, RowsTold, sheet_text, Says, Counted};
ghost use Rattle.typed_text.specs.declared.TextError.TheVariants.{Sheet};

use records::Row;
use refusals::Refusal;
use text::Text;

// Where a sheet's records are: specs/SheetText.antt says of each field what it is.
#[derive(Clone, Copy)]
pub struct Places {
    pub charts: usize,
    pub own: usize,
    pub weights: usize,
    pub rows: usize,
    pub queries: usize,
}

// Why a sheet has no text, or its text was not written.
#[derive(Clone, Copy, PartialEq, Eq)]
pub enum TextError {
    // A check of the sheet stops it.
    Sheet(Refusal),
    // The first row that check 8 or 9 stops, and which of them does.
    Row { index: usize, refusal: Refusal },
    // The output has too few bytes for the text.
    Short,
}

impl From<Refusal> for TextError {
    ghost from_gives = { λ r e. e ≡ Sheet r };

    fn from(refusal: Refusal) -> TextError {
        TextError::Sheet(refusal)
    }
}

fn places_of(sheet: &[u8]) -> Places
    requires { stop_of sheet.now ≡ 0 }
    ensures { Placed sheet.now result }
{
    let charts = records::read_count(sheet, 0);
    let scoring = 4 + 8 * charts;
    let own = records::read_count(sheet, scoring);
    let from = scoring + 4 + 20 * own;
    let queries = records::read_count(sheet, from);
    Places {
        charts,
        own,
        weights: scoring + 4,
        rows: from + 4,
        queries,
    }
}

// Checks 8 and 9 of a row: the first that stops it is told.
#[tactic(auto, unfolding(crate::specs::SheetText::row_fault))]
fn check_row(row: Row) -> Result<(), Refusal>
    ensures { status_of (answer_of result) ≡ row_fault row }
{
    if row_checks::unknown_row(row) {
        return Err(Refusal::UnknownCode);
    }
    if row_checks::fields_left(row) {
        return Err(Refusal::LeftOver);
    }
    Ok(())
}

fn check_at(sheet: &[u8], p: Places, i: usize) -> Result<(), Refusal>
    requires placed { Placed sheet.now p }
    requires i_lt_queries { i < p.queries }
    ensures { status_of (answer_of result) ≡ fault_at sheet.now i }
{
    let base = p.rows;
    check_row(records::read_row(sheet, base + 48 * i))
}

// The first row that check 8 or 9 stops is told.
fn check_rows(sheet: &[u8], p: Places) -> Result<(), TextError>
    requires { Placed sheet.now p }
    ensures { RowsTold sheet.now result }
{
    for index in 0..p.queries {
        if let Err(refusal) = check_at(sheet, p, index) {
            return Err(TextError::Row { index, refusal });
        }
    }
    Ok(())
}

// Line j of the text.
fn put_line(line: &mut Text<'_>, sheet: &[u8], p: Places, j: usize)
    requires placed { Placed sheet.now p }
    requires j_bound { j < p.charts + p.own + p.queries }
    requires room { HasRoom line.old 195 }
    ensures gained { Gained line.old line.new (line_at sheet.now j) }
    ensures upper_bound { line.new.len ≤ line.old.len + 195 }
{
    let charts = p.charts;
    if j < charts {
        return sheet_lines::put_chart(line, records::read_chart(sheet, 4 + 8 * j));
    }
    let before = charts + p.own;
    if j < before {
        let at = p.weights;
        return sheet_lines::put_weights(line, records::read_weights(sheet, at));
    }
    let base = p.rows;
    sheet_lines::put_play(line, records::read_row(sheet, base + 48 * (j - before)));
}

fn line_size(sheet: &[u8], p: Places, j: usize) -> usize
    requires placed { Placed sheet.now p }
    requires j_bound { j < p.charts + p.own + p.queries }
    ensures { (result ≡ length (line_at sheet.now j)) × (result ≤ 195) }
{
    let mut bytes = [0u8; sheet_lines::ROOM];
    let mut line = Text::new(&mut bytes);
    put_line(&mut line, sheet, p, j);
    line.len()
}

// How many bytes the first n lines have.
fn text_size(sheet: &[u8], p: Places, n: usize) -> usize
    requires placed { Placed sheet.now p }
    requires n_value { n ≡ p.charts + p.own + p.queries }
    ensures { result ≡ length (joined (line_at sheet.now) n) }
{
    let mut size: usize = 0;
    for j in 0..n {
        size += line_size(sheet, p, j);
    }
    size
}

// Line j, where there may be room for no more.
fn write_line(text: &mut Text<'_>, sheet: &[u8], p: Places, j: usize)
    requires placed { Placed sheet.now p }
    requires j_bound { j < p.charts + p.own + p.queries }
    requires room { HasRoom text.old (length (line_at sheet.now j)) }
    ensures { Gained text.old text.new (line_at sheet.now j) }
{
    let mut bytes = [0u8; sheet_lines::ROOM];
    let mut line = Text::new(&mut bytes);
    put_line(&mut line, sheet, p, j);
    let end = line.len();
    text.put_bytes(&bytes[..end]);
}

// The first n lines.
fn write_lines(text: &mut Text<'_>, sheet: &[u8], p: Places, n: usize)
    requires placed { Placed sheet.now p }
    requires n_value { n ≡ p.charts + p.own + p.queries }
    requires room { HasRoom text.old (length (joined (line_at sheet.now) n)) }
    ensures { Gained text.old text.new (joined (line_at sheet.now) n) }
{
    for j in 0..n {
        write_line(text, sheet, p, j);
    }
}

// The text of a sheet, at the front of the output.
pub fn text_of(sheet: &[u8], out: &mut [u8]) -> Result<usize, TextError>
    ensures outcome { Says (sheet_text sheet.now out.old) result out.new }
    ensures counted { Counted result out.new }
{
    sheets::check(sheet, 36864)?;
    let p = places_of(sheet);
    check_rows(sheet, p)?;
    let n = p.charts + p.own + p.queries;
    if out.len() < text_size(sheet, p, n) {
        return Err(TextError::Short);
    }
    let mut text = Text::new(out);
    write_lines(&mut text, sheet, p, n);
    Ok(text.len())
}
