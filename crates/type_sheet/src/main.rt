// The program: a text from standard input, its sheet to standard output. Its stored text is the page's example.
#![tactic(auto)]

fn main(rt: HostRuntime) {
    typed_print::make(rt.stdin(), rt.stdout(), rt.stderr());
}
