// A sheet that no check stops, walked by one reader from its first byte to its last; its charts lie in one list that is lent to the rows.
#![tactic(auto)]

ghost use Rattle.std.specs.Prelude.{true, ◌≡◌, ◌+◌, ◌*◌, ◌≤◌, length, take};
ghost use Rattle.lists.specs.Lists.{put};
ghost use Rattle.records.specs.Records.{row_at};
ghost use Rattle.weighting.specs.Scoring.{allowed};
ghost use Rattle.rows.specs.Rows.{row_answer};
ghost use Rattle.answers.specs.Answers.{answer_bytes};
ghost use Rattle.sheets_laws.specs.Sheets.{scoring_of, charts_of, query_count, rows_at, sheet_stop, rows_written};

use cursor::Reader;
use inspect::Chart;
use weighting::Scoring;

// What stands before a sheet's queries: its charts, the first count of a lent list, and by which weights its rows are scored.
#[derive(Clone, Copy)]
struct Header<'a> {
    charts: &'a [Chart],
    count: usize,
    scoring: Scoring,
    ghost long: { length charts.now ≡ 256 },
    ghost few: { count ≤ 256 },
    ghost passes: { allowed scoring ≡ true },
}

// The query where the reader stands: it is read, its chart is found in the lent list, and its answer is written.
fn work_row(reader: &mut Reader, header: Header, out: &mut [u8], at: usize)
    requires { (reader.old.at + 48 ≤ length reader.old.sheet.now) × (at + 36 ≤ length out.old) }
    ensures { (reader.new.sheet ≡ reader.old.sheet) × (reader.new.at ≡ reader.old.at + 48) × (out.new ≡ put out.old at (answer_bytes (row_answer header.entry.scoring (row_at reader.old.sheet.now reader.old.at) (take header.entry.count header.entry.charts.now)))) }
{
    let row = records::read_row(reader.read(48), 0);
    let index = row_checks::chart_index(row, header.count);
    let chart = charts::chart_at(header.charts, index);
    rows::put_row(row, chart, header.count, header.scoring, out, at);
}

// The n rows that start where the reader stands, one after the other.
fn work_rows(reader: &mut Reader, header: Header, n: usize, out: &mut [u8])
    requires { (reader.old.at + 48 * n ≤ length reader.old.sheet.now) × (36 * n ≤ length out.old) }
    ensures { (reader.new.sheet ≡ reader.old.sheet) × (reader.new.at ≡ reader.old.at + 48 * n) × (out.new ≡ rows_written reader.old.sheet.now header.entry.scoring (take header.entry.count header.entry.charts.now) reader.old.at n out.old) }
{
    for i in 0..n {
        work_row(reader, header, out, 36 * i);
    }
}

// Each section after its count, the charts, own weights and the queries: how many queries were worked.
pub fn work_accepted(sheet: &[u8], out: &mut [u8]) -> usize
    requires { sheet_stop sheet.now (length out.old) ≡ 0 }
    ensures { (result ≡ query_count sheet.now) × (out.new ≡ rows_written sheet.now (scoring_of sheet.now) (charts_of sheet.now) (rows_at sheet.now) (query_count sheet.now) out.old) }
{
    let mut reader = Reader::new(sheet);
    let count = records::read_count(reader.read(4), 0);
    let charts = charts::read_charts(reader.read(8 * count), 0, count);
    let own = records::read_count(reader.read(4), 0);
    let scoring = records::read_scoring(reader.read(20 * own), 0, own);
    let queries = records::read_count(reader.read(4), 0);
    let header = Header {
        charts: &charts,
        count,
        scoring,
    };
    work_rows(&mut reader, header, queries, out);
    queries
}
