// The program: a text from standard input, what is printed of its sheet to standard output. Its stored text is that of `type_sheet`.
#![tactic(auto)]

fn main(rt: HostRuntime) {
    typed_print::print(rt.stdin(), rt.stdout(), rt.stderr());
}
