// The program: ten weights from standard input, their stride table to standard output. Its stored weights are the two standard sets.
#![tactic(auto)]

fn main(rt: HostRuntime) {
    stride_print::run(rt.stdin(), rt.stdout(), rt.stderr());
}
