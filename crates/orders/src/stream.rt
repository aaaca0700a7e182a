// Standard input read until it ends, and standard output written whole. A signal's interruption is no failure: the call is made again.
ghost use Rattle.std.specs.Prelude.{◌≡◌, length, IfOk, OnErr};
ghost use Rattle.io.specs.Counts.{IsPrefixLen};

use std::io::{Error, ErrorKind, Read, Result, Stdin, Stdout, Write};

// The most calls that a reading or a writing takes, since a loop has to end; each moves a byte at least, unless it is interrupted.
const CALLS: u64 = 1000000;

// Reads until the input ends, the room is full or a read fails; how many bytes were read, which stand at the room's start. The error is that of the read that
// failed; the room then has whatever was read before it.
pub fn read_input(input: &mut Stdin, room: &mut [u8]) -> Result<usize>
    ensures ok { IfOk result (λ n. IsPrefixLen n room.new) }
    ensures err { OnErr result (length room.new ≡ length room.old) }
{
    let mut n: usize = 0;
    for _ in 0..CALLS {
        match input.read(&mut room[n..]) {
            Ok(0) => return Ok(n),
            Ok(got) => n += got,
            Err(e) if failed(&e) => return Err(e),
            Err(_) => {}
        }
    }
    Err(Error::from(ErrorKind::Interrupted))
}

// Writes all of a text, or gives the error of the write that fails. No `write_all`: that takes a write that moves nothing for a failure, and so it does the
// interruption that comes after as many as the text has bytes, and 64.
pub fn write_output(output: &mut Stdout, text: &[u8]) -> Result<()> {
    let mut n: usize = 0;
    for _ in 0..CALLS {
        if n == text.len() {
            return Ok(());
        }
        match output.write(&text[n..]) {
            Ok(put) => n += put,
            Err(e) if failed(&e) => return Err(e),
            Err(_) => {}
        }
    }
    Err(Error::from(ErrorKind::Interrupted))
}

// The call that gave this error failed, and not by a signal's interruption.
fn failed(e: &Error) -> bool {
    e.kind() != ErrorKind::Interrupted
}
