// The gate's stored weights: each file of data/ is printed as the program `strides` prints it, after a line with its name; stdout has what
// is expected. `tests/beside/run stored_strides` writes both.
#![tactic(auto)]

// One call, which names the program once for all files.
fn stored(rt: &HostRuntime, name: &[u8]) {
    stored_files::print_stored(rt, name, |file, output, errors| {
        stride_print::print_from(file, output, errors)
    });
}

fn main(rt: HostRuntime) {
    stored(&rt, b"standard.weights");
    // The first set folds, the second does not.
    stored(&rt, b"own.weights");
    stored(&rt, b"no_bytes.weights");
    stored(&rt, b"39_bytes.weights");
    stored(&rt, b"41_bytes.weights");
    stored(&rt, b"42_bytes.weights");
    stored(&rt, b"over.weights");
    stored(&rt, b"rising.weights");
    stored(&rt, b"equal.weights");
    stored(&rt, b"zero.weights");
    // A folder, which opens and cannot be read.
    stored(&rt, b".");
}
