// The program: a sheet from standard input, its answers to standard output. Its stored sheet is document 01's example.
#![tactic(auto)]

fn main(rt: HostRuntime) {
    sheet_print::run(rt.stdin(), rt.stdout(), rt.stderr());
}
