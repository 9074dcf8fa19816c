// Document 02, L6: the stride table of any two weightings, worked out.
#![tactic(auto)]

ghost use Rattle.std.specs.Prelude.{◌≡◌, true, false, cond, ◌++◌, ◌+◌, ◌≤◌, ltb, length, take, drop};
ghost use Rattle.lists.specs.Lists.{put};
ghost use Rattle.score_state.specs.Points.{weights_of, standard};
ghost use Rattle.score_state.specs.Answer.{answer_of, status_of};
ghost use Rattle.stride_rows.specs.Strides.{row_rule};
ghost use Rattle.stride_table.specs.StrideTable.{table_of, standard_table, table_status, table_out};

use refusals::Refusal;
use score_state::Weights;

// The set of row r.
fn set_of(first: Weights, second: Weights, r: u8) -> Weights
    ensures { weights_of result ≡ cond (ltb r 32) (weights_of first) (weights_of second) }
{
    if r < 32 { first } else { second }
}

// Row r of the table.
fn row_of(first: Weights, second: Weights, r: u8) -> [u32; 5]
    ensures { result ≡ row_rule (weights_of first) (weights_of second) r }
{
    plan::by_formula(set_of(first, second, r), r % 32)
}

// A row's five numbers in place of those that stood there.
#[tactic(auto, unfolding(lists::specs::Lists::put))]
fn put_row(out: &mut [u32], at: usize, row: [u32; 5])
    requires { at + 5 ≤ length out.old }
    ensures { out.new ≡ put out.old at row }
{
    out[at..at + 5].copy_from_slice(&row);
}

// The 64 rows, one after the other.
fn put_rows(first: Weights, second: Weights, out: &mut [u32])
    requires { 320 ≤ length out.old }
    ensures { out.new ≡ table_of (weights_of first) (weights_of second) ++ drop 320 out.old }
{
    for r in 0..64 {
        put_row(out, 5 * r as usize, row_of(first, second, r));
    }
}

// Fills out with the table: the first set's rows, then the second's. Refused where a set is none that a league may set, then where out has
// fewer than 320 places; out is then left as it was.
#[tactic(auto, unfolding(crate::specs::StrideTable::table_status, crate::specs::StrideTable::table_out))]
pub fn fill_strides(first: Weights, second: Weights, out: &mut [u32]) -> Result<(), Refusal>
    ensures status { status_of (answer_of result) ≡ table_status (weights_of first) (weights_of second) (length out.old) }
    ensures numbers { out.new ≡ table_out (weights_of first) (weights_of second) out.old }
    ensures standard { weights_of first ≡ standard false → weights_of second ≡ standard true → 320 ≤ length out.old → (status_of (answer_of result) ≡ 0) × (take 320 out.new ≡ standard_table) }
{
    if !weighting::is_weighting(first) || !weighting::is_weighting(second) {
        return Err(Refusal::WeightsUnfit);
    }
    if out.len() < 320 {
        return Err(Refusal::Short);
    }
    put_rows(first, second, out);
    Ok(())
}
