// What the programs do with their input and output: they read all of it, write a text at once, and tell a read or a write that failed on
// standard error. No contract can say what the system gives or takes; of a reader and a writer whose bytes are known, these say which.
#![tactic(auto)]

ghost use Rattle.std.specs.Prelude.{◌^◌, ◌<◌, length, take, OnOk, IfOk};
ghost use Rattle.std.specs.Bool.{OnTrue};
ghost use Rattle.std.specs.Io.KnownBytes.{Appends, Consumes, IsAtEnd};
ghost use Rattle.io.specs.Counts.{IsPrefixLen};
ghost use Rattle.streams.specs.Input.{Took, Answers, Gives};

use std::io::{Read, Result, Write};

// The most that is read of a sheet: a full one with own weights, 51,232 bytes, and one byte more, which shows that bytes follow the last query.
pub const MOST_OF_SHEET: usize = 4 + 256 * 8 + 4 + 5 * 4 + 4 + 1024 * 48 + 1;

// Reads to the end of the input, until the buffer is full or until a read fails, and answers how many bytes came, those before a failure
// too, and whether none failed.
fn fill<R: Read>(reader: &mut R, buf: &mut [u8]) -> (usize, Result<()>)
    ensures in_bounds { IsPrefixLen result.0 buf.new }
    ensures bytes { Consumes (R.remaining reader.old) (R.remaining reader.new) (take result.0 buf.new) }
    ensures end { OnOk result.1 (result.0 < length buf.new → IsAtEnd (R.remaining reader.new)) }
{
    let mut done: usize = 0;
    // Stays a while: each read says how many bytes came, and no for is plainer.
    while done < buf.len() {
        match reader.read(&mut buf[done..]) {
            Ok(0) => return (done, Ok(())),
            Ok(more) => done += more,
            Err(failure) => return (done, Err(failure)),
        }
    }
    (done, Ok(()))
}

// Reads to the end of the input, or until the buffer is full.
pub fn read_all<R: Read>(reader: &mut R, buf: &mut [u8]) -> Result<usize>
    ensures in_bounds { IfOk result (λ n. IsPrefixLen n buf.new) }
    ensures took { IfOk result (λ n. Took (R.remaining reader.old) (R.remaining reader.new) buf.new n) }
{
    let (done, outcome) = fill(reader, buf);
    outcome?;
    Ok(done)
}

// The same, which takes a read that fails for the end.
pub fn read_full<R: Read>(reader: &mut R, buf: &mut [u8]) -> usize
    ensures in_bounds { IsPrefixLen result buf.new }
    ensures bytes { Consumes (R.remaining reader.old) (R.remaining reader.new) (take result buf.new) }
{
    fill(reader, buf).0
}

// Tells what failed.
pub fn tell<E: Write>(errors: &mut E, message: &[u8]) {
    let _ = errors.write_all(message);
}

// Writes a text to the output, and answers whether all of it went; if not, the message is told.
pub fn write_text<O: Write, E: Write>(
    output: &mut O,
    errors: &mut E,
    text: &[u8],
    message: &[u8],
) -> bool
    ensures { OnTrue result (Appends (O.contents output.old) (O.contents output.new) text.now) }
{
    let written = output.write_all(text).is_ok();
    if !written {
        tell(errors, message);
    }
    written
}

// Reads at most so many bytes and hands them on to what answers them, with the output and where to tell what fails. It answers whether all
// was read and answered; a read that fails is told by the message.
pub fn pass<
    const MOST: usize,
    R: Read,
    O: Write,
    E: Write,
    F: FnOnce(&[u8], &mut O, &mut E) -> bool,
>(input: &mut R, output: &mut O, errors: &mut E, message: &[u8], answer: F) -> bool
    requires fits { MOST < 2 ^ 63 }
    requires callable { F.IsAlwaysCallable answer }
    ensures { OnTrue result (Gives MOST (λ bytes. Answers F.FnOnce answer bytes output.old output.new result) (R.remaining input.old) (R.remaining input.new)) }
{
    let mut bytes = [0u8; MOST];
    match read_all(input, &mut bytes) {
        Ok(n) => answer(&bytes[..n], output, errors),
        Err(_) => {
            tell(errors, message);
            false
        }
    }
}
