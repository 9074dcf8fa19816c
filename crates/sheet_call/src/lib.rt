// The call that works a sheet, with its totals as numbers.
#![tactic(auto)]

ghost use Rattle.std.specs.Prelude.{◌≡◌, ◌++◌, ◌≤◌, length, drop};
ghost use Rattle.totals.specs.Totals.{seven_of};
ghost use Rattle.sheet_call.specs.SheetLent.{sheet_lent, sheet_handed};

use refusals::Refusal;
use totals::Totals;

// The seven numbers of a sheet to an output that has room for them.
fn hand_totals(t: Totals, out: &mut [u64])
    requires { 7 ≤ length out.old }
    ensures { out.new ≡ seven_of t ++ drop 7 out.old }
{
    let seven = [t.rows, t.n320, t.n300, t.n200, t.n100, t.n50, t.misses];
    out[..7].copy_from_slice(&seven);
}

// Works a sheet: 0 with an answer of 36 bytes for each query in out and their seven numbers in totals, or 1 to 5 or 18 with both
// unchanged.
pub fn work_sheet(sheet: &[u8], out: &mut [u8], totals: &mut [u64]) -> u32
    ensures { sheet_lent result out.new totals.new ≡ sheet_handed sheet.now out.old totals.old }
{
    if totals.len() < 7 {
        return Refusal::Short.into();
    }
    match sheets::work_sheet(sheet, out) {
        Ok(worked) => {
            hand_totals(worked.totals, totals);
            0
        }
        Err(refusal) => refusal.into(),
    }
}
