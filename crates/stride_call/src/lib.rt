// The stride table with its weights as numbers.
#![tactic(auto)]

ghost use Rattle.std.specs.Prelude.{◌≡◌, length};
ghost use Rattle.stride_table.specs.StrideTable.{table_status, table_out};
ghost use Rattle.stride_call.specs.FiveWeights.{five_weights};

use score_state::Weights;

// Of two weightings, a and b: 0 with its 320 numbers in out; or 18 where either is none that a league may set, then 5 where out is too
// short, with out unchanged.
pub fn strides(
    a320: u32,
    a300: u32,
    a200: u32,
    a100: u32,
    a50: u32,
    b320: u32,
    b300: u32,
    b200: u32,
    b100: u32,
    b50: u32,
    out: &mut [u32],
) -> u32
    ensures value { result ≡ table_status (five_weights a320 a300 a200 a100 a50) (five_weights b320 b300 b200 b100 b50) (length out.old) }
    ensures out_after { out.new ≡ table_out (five_weights a320 a300 a200 a100 a50) (five_weights b320 b300 b200 b100 b50) out.old }
{
    let first = Weights {
        n320: a320,
        n300: a300,
        n200: a200,
        n100: a100,
        n50: a50,
    };
    let second = Weights {
        n320: b320,
        n300: b300,
        n200: b200,
        n100: b100,
        n50: b50,
    };
    match stride_table::fill_strides(first, second, out) {
        Ok(()) => 0,
        Err(refusal) => refusal.into(),
    }
}
