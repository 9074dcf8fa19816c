// The program: a sheet from standard input, its text to standard output.
#![tactic(auto)]

fn main(rt: HostRuntime) {
    text_print::run(rt.stdin(), rt.stdout(), rt.stderr());
}
