// The program `strides` for a C `main` to return: 0, or 1 where a read or a write failed. A program of Rattle's own always ends with 0.
// The three handles take no bytes: C calls `int32_t nuqsillay_strides_main(void)`.
#![tactic(auto)]

use std::io::{Stderr, Stdin, Stdout};

#[unsafe(no_mangle)]
pub extern "C" fn nuqsillay_strides_main(stdin: Stdin, stdout: Stdout, stderr: Stderr) -> i32 {
    if stride_print::run(stdin, stdout, stderr) {
        0
    } else {
        1
    }
}
