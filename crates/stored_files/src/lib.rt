// What the gate's programs of stored inputs do with each file: they name it, print what a program prints of it, and tell what that left
// of it.
#![tactic(auto)]

use std::fs::{self, File};
use std::io::{ErrorKind, Read, Result, Stderr, Stdout, Write};
use std::rt::Files;

// A stored file as what reads it. One that could not be opened cannot be read either.
#[derive(Drop)]
pub struct Stored<F>(Option<F>);

impl<F: Read> Read for Stored<F> {
    fn read(&mut self, buf: &mut [u8]) -> Result<usize> {
        match &mut self.0 {
            Some(file) => file.read(buf),
            None => Err(ErrorKind::NotFound.into()),
        }
    }
}

// Prints the file's name and opens it.
pub fn opened<R: Files, O: Write>(rt: &R, output: &mut O, name: &[u8]) -> Stored<R::File> {
    let _ = output.write_all(name);
    let _ = output.write_all(b"\n");
    let Ok(path) = str::from_utf8(name) else {
        return Stored(None);
    };
    Stored(fs::open(rt, path).ok())
}

// What a program left of its input: it reads no more than it needs to tell that bytes follow.
fn unread<F: Read, O: Write>(file: &mut F, output: &mut O) {
    let mut rest = [0u8; 20];
    let n = streams::read_full(file, &mut rest);
    if n > 0 {
        let _ = write!(output, "{n} not read\n");
    }
}

// Prints the file's name, and of the file what a program prints of it; then what that left of the file, or that it failed.
pub fn print_stored<F: FnOnce(&mut Stored<File>, &mut Stdout, &mut Stderr) -> bool>(
    rt: &HostRuntime,
    name: &[u8],
    print: F,
)
    requires { F.IsAlwaysCallable print }
{
    let mut output = rt.stdout();
    let mut file = opened(rt, &mut output, name);
    if print(&mut file, &mut output, &mut rt.stderr()) {
        unread(&mut file, &mut output);
    } else {
        let _ = output.write_all(b"failed\n");
    }
}
