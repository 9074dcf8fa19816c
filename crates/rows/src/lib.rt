// A row of a sheet: its answer, and the answer written.
#![tactic(auto)]

ghost use Rattle.std.specs.Prelude.{◌≡◌, ◌+◌, ◌≤◌, true, ltb, length};
ghost use Rattle.lists.specs.Lists.{put};
ghost use Rattle.weighting.specs.Scoring.{allowed};
ghost use Rattle.answers.specs.Answers.{answer_bytes};
ghost use Rattle.generated.specs.Generated.{values, generated_of};
ghost use Rattle.score_state.specs.Answer.{unless};
ghost use Rattle.rows.specs.Rows.{found_answer};

use generated::Generated;
use inspect::Chart;
use records::Row;
use refusals::Refusal;
use score_state::HitResults;
use weighting::Scoring;

// What the direct call's eight values tell.
fn generated_in(numbers: [u32; 8]) -> Generated
    requires { length numbers ≡ 8 }
    ensures { values result ≡ numbers }
{
    Generated {
        counts: HitResults {
            n320: numbers[0],
            n300: numbers[1],
            n200: numbers[2],
            n100: numbers[3],
            n50: numbers[4],
            misses: numbers[5],
        },
        tried: numbers[6],
        left: points_left::signed_of(numbers[7]),
    }
}

// The answer of a row whose chart is found.
fn found_answer(row: Row, chart: Chart, scoring: Scoring) -> Result<Generated, Refusal>
    requires { allowed scoring ≡ true }
    ensures { generated_of result ≡ found_answer scoring row chart }
{
    row_checks::check(row, chart, scoring)?;
    let acc = little_endian::f64_of(row.acc);
    let kind = direct::kind_of(scoring, row.classic == 1);
    let mut numbers = direct::numbers_of(scoring);
    direct::scored(
        chart.n_objects,
        chart.n_hold_notes,
        row.method,
        row.priority,
        kind,
        row.presence,
        row.n320,
        row.n300,
        row.n200,
        row.n100,
        row.n50,
        row.misses,
        row.passed,
        row.holds_given,
        row.holds_passed,
        acc,
        &mut numbers,
    )?;
    Ok(generated_in(numbers))
}

// The answer of a row of a sheet with n charts, chart being the one that it names, if it names one of them.
fn row_answer(row: Row, chart: Chart, n: usize, scoring: Scoring) -> Result<Generated, Refusal>
    requires { allowed scoring ≡ true }
    ensures { generated_of result ≡ unless (ltb row.chart n) 6 (found_answer scoring row chart) }
{
    let index = row.chart as usize;
    if index < n {
        found_answer(row, chart, scoring)
    } else {
        Err(Refusal::NoChart)
    }
}

// The same answer, written at a place of the output.
pub fn put_row(row: Row, chart: Chart, n: usize, scoring: Scoring, out: &mut [u8], at: usize)
    requires { (allowed scoring ≡ true) × (at + 36 ≤ length out.old) }
    ensures { out.new ≡ put out.old at (answer_bytes (unless (ltb row.chart n) 6 (found_answer scoring row chart))) }
{
    let answer = row_answer(row, chart, n, scoring);
    answers::put_answer(out, at, answer);
}
