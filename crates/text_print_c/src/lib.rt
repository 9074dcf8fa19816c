// The program `sheet_text` for a C `main` to return: 0, or 1 where there is no text or a read or a write failed.
// The three handles take no bytes: C calls `int32_t nuqsillay_sheet_text_main(void)`.
#![tactic(auto)]

use std::io::{Stderr, Stdin, Stdout};

#[unsafe(no_mangle)]
pub extern "C" fn nuqsillay_sheet_text_main(stdin: Stdin, stdout: Stdout, stderr: Stderr) -> i32 {
    if text_print::run(stdin, stdout, stderr) {
        0
    } else {
        1
    }
}
