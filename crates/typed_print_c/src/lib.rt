// The programs `type_sheet` and `typed` for a C `main` to return: 0, or 1 where the text has a fault or a read or a write failed.
// The three handles take no bytes: C calls `int32_t nuqsillay_type_sheet_main(void)` and `int32_t nuqsillay_typed_main(void)`.
#![tactic(auto)]

use std::io::{Stderr, Stdin, Stdout};

#[unsafe(no_mangle)]
pub extern "C" fn nuqsillay_type_sheet_main(stdin: Stdin, stdout: Stdout, stderr: Stderr) -> i32 {
    if typed_print::make(stdin, stdout, stderr) {
        0
    } else {
        1
    }
}

#[unsafe(no_mangle)]
pub extern "C" fn nuqsillay_typed_main(stdin: Stdin, stdout: Stdout, stderr: Stderr) -> i32 {
    if typed_print::print(stdin, stdout, stderr) {
        0
    } else {
        1
    }
}
