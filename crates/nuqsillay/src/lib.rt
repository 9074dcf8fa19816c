// The calls that C and Rust programs link: numbers and slices only, each over a call of its own crate that has the same contract. Their header
// is include/nuqsillay.h. holds_given is a bool there, one byte of 0 or 1 (`inspect::holds_of` says why it is none here).
#![tactic(auto)]

ghost use Rattle.std.specs.Prelude.{◌≡◌, length};
ghost use Rattle.score_state.specs.Answer.{status_of};
ghost use Rattle.score_state.specs.Lent.{six_counts, lent, answered, handed};
ghost use Rattle.score_state.specs.Accuracy.{accuracy_answer};
ghost use Rattle.inspect.specs.Inspect.{acc_of, acc_by};
ghost use Rattle.accuracy_call.specs.Value.{value_or};
ghost use Rattle.rounded_target.specs.Answers.{target_answer, target_query};
ghost use Rattle.generate_laws.specs.Generate.{generate_answer};
ghost use Rattle.direct.specs.Direct.{query_by};
ghost use Rattle.sheet_call.specs.SheetLent.{sheet_lent, sheet_handed};
ghost use Rattle.stride_table.specs.StrideTable.{table_status, table_out};
ghost use Rattle.stride_call.specs.FiveWeights.{five_weights};
ghost use Rattle.relay_laws.specs.Relay.{relay_answer, IsRelay};
ghost use Rattle.typed_call.specs.Told.{lent_by, sheet_told};
ghost use Rattle.text_call.specs.TextTold.{text_told};

// `accuracy`: 0 with the accuracy behind value, or 10.
#[unsafe(no_mangle)]
pub extern "C" fn nuqsillay_accuracy(
    n320: u32,
    n300: u32,
    n200: u32,
    n100: u32,
    n50: u32,
    misses: u32,
    classic: bool,
    value: &mut f64,
) -> u32
    ensures value { result ≡ status_of (accuracy_answer (six_counts n320 n300 n200 n100 n50 misses) classic) }
    ensures value_after { value.new ≡ value_or (accuracy_answer (six_counts n320 n300 n200 n100 n50 misses) classic) value.old }
{
    accuracy_call::accuracy(n320, n300, n200, n100, n50, misses, classic, value)
}

// `rounded_target`: 0 with total hits, misses, remain and the rounded target in out, or the number that refuses.
#[unsafe(no_mangle)]
pub extern "C" fn nuqsillay_target(
    objects: u32,
    holds: u32,
    classic: bool,
    presence: u8,
    misses: u32,
    passed: u32,
    holds_given: u8,
    holds_passed: u32,
    acc: f64,
    out: &mut [u32],
) -> u32
    ensures { lent result out.new ≡ handed 4 (target_answer (target_query objects holds classic presence misses passed holds_given holds_passed acc)) out.old }
{
    rounded_target::target_numbers(
        objects,
        holds,
        classic,
        presence,
        misses,
        passed,
        holds_given,
        holds_passed,
        acc,
        out,
    )
}

// The direct call: 0 with the five counts, misses, tried and the bits of left in out, or the number that refuses.
#[unsafe(no_mangle)]
pub extern "C" fn nuqsillay_generate(
    objects: u32,
    holds: u32,
    method: u8,
    priority: u8,
    classic: bool,
    presence: u8,
    n320: u32,
    n300: u32,
    n200: u32,
    n100: u32,
    n50: u32,
    misses: u32,
    passed: u32,
    holds_given: u8,
    holds_passed: u32,
    acc: f64,
    out: &mut [u32],
) -> u32
    ensures { lent result out.new ≡ handed 8 (generate_answer (query_by objects holds method priority classic presence (six_counts n320 n300 n200 n100 n50 misses) passed holds_given holds_passed acc)) out.old }
{
    direct::generate(
        objects,
        holds,
        method,
        priority,
        classic,
        presence,
        n320,
        n300,
        n200,
        n100,
        n50,
        misses,
        passed,
        holds_given,
        holds_passed,
        acc,
        out,
    )
}

// Works a sheet: 0 with an answer of 36 bytes for each query in out and their seven numbers in totals, or 1 to 5 or 18 with both
// unchanged.
#[unsafe(no_mangle)]
pub extern "C" fn nuqsillay_work_sheet(sheet: &[u8], out: &mut [u8], totals: &mut [u64]) -> u32
    ensures { sheet_lent result out.new totals.new ≡ sheet_handed sheet.now out.old totals.old }
{
    sheet_call::work_sheet(sheet, out, totals)
}

// The stride table of two weightings, a and b: 0 with its 320 numbers in out; or 18 where either is none that a league may set, then 5
// where out is too short, with out unchanged.
#[unsafe(no_mangle)]
pub extern "C" fn nuqsillay_strides(
    a320: u32,
    a300: u32,
    a200: u32,
    a100: u32,
    a50: u32,
    b320: u32,
    b300: u32,
    b200: u32,
    b100: u32,
    b50: u32,
    out: &mut [u32],
) -> u32
    ensures value { result ≡ table_status (five_weights a320 a300 a200 a100 a50) (five_weights b320 b300 b200 b100 b50) (length out.old) }
    ensures out_after { out.new ≡ table_out (five_weights a320 a300 a200 a100 a50) (five_weights b320 b300 b200 b100 b50) out.old }
{
    stride_call::strides(
        a320, a300, a200, a100, a50, b320, b300, b200, b100, b50, out,
    )
}

// A relay of two to eight charts, three numbers each in plays: its objects, its holds and its misses. 0 with tried and six counts a chart in
// out, or 21, 5, 7, 10, 11 or 13.
#[unsafe(no_mangle)]
pub extern "C" fn nuqsillay_relay(
    classic: bool,
    acc_given: bool,
    acc: f64,
    plays: &[u32],
    out: &mut [u32],
) -> u32
    ensures equation { lent result out.new ≡ answered (relay_answer classic (acc_of (acc_by acc_given acc)) plays.now (length out.old)) out.old }
    ensures relayed { result ≡ 0 → IsRelay classic (acc_of (acc_by acc_given acc)) plays.now out.new }
{
    relay_call::relay(classic, acc_given, acc, plays, out)
}

// The sheet of a text that is typed, at the front of out: 0 with its length in told; or the number of the text's first fault, with its line, where
// its word starts and the word's length; or 15.
#[unsafe(no_mangle)]
pub extern "C" fn nuqsillay_sheet_of(text: &[u8], out: &mut [u8], told: &mut [u64]) -> u32
    ensures { lent_by result out.new told.new ≡ sheet_told text.now out.old told.old }
{
    typed_call::sheet_of(text, out, told)
}

// The text of a sheet, at the front of out: 0 with its length in told; or the number that refuses the sheet, or with its index a row.
#[unsafe(no_mangle)]
pub extern "C" fn nuqsillay_text_of(sheet: &[u8], out: &mut [u8], told: &mut [u64]) -> u32
    ensures { lent_by result out.new told.new ≡ text_told sheet.now out.old told.old }
{
    text_call::text_of(sheet, out, told)
}
