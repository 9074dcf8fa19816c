// The gate's stored sheets: each file of data/ is printed as the program `sheet` prints it, after a line with its name; stdout has what
// is expected. `tests/beside/run stored` writes both.
#![tactic(auto)]

// One call, which names the program once for all files.
fn stored(rt: &HostRuntime, name: &[u8]) {
    stored_files::print_stored(rt, name, |file, output, errors| {
        sheet_print::print_from(file, output, errors)
    });
}

fn main(rt: HostRuntime) {
    stored(&rt, b"example.sheet");
    stored(&rt, b"no_bytes.sheet");
    stored(&rt, b"no_queries.sheet");
    stored(&rt, b"cut.sheet");
    stored(&rt, b"charts_over.sheet");
    stored(&rt, b"queries_over.sheet");
    stored(&rt, b"one_byte_follows.sheet");
    stored(&rt, b"full.sheet");
    stored(&rt, b"full_one_follows.sheet");
    stored(&rt, b"full_two_follow.sheet");
    stored(&rt, b"holds_passed.sheet");
    stored(&rt, b"full_standard_one_follows.sheet");
    stored(&rt, b"full_standard_22_follow.sheet");
    stored(&rt, b"own.sheet");
    stored(&rt, b"own_equal.sheet");
    stored(&rt, b"own_longest.sheet");
    stored(&rt, b"weights_count_cut.sheet");
    stored(&rt, b"weights_count_2.sheet");
    stored(&rt, b"weights_cut.sheet");
    stored(&rt, b"weights_over.sheet");
    stored(&rt, b"weights_zero.sheet");
    stored(&rt, b"weights_rising.sheet");
    stored(&rt, b"weights_equal.sheet");
    stored(&rt, b"weights_queries_over.sheet");
    // A folder, which opens and cannot be read.
    stored(&rt, b".");
}
