// Reads as much of an input as a buffer holds.
#![tactic(auto)]

ghost use Rattle.std.specs.Prelude.{◌≡◌, ◌≤◌, ◌<◌, length, take, IsOk};
ghost use Rattle.std.specs.Io.KnownBytes.{Consumes, IsAtEnd};

use std::io;
use std::io::Read;

// Reads until the buffer is full, the input ends or a read fails. Gives the bytes that were read, and whether it failed.
pub fn fill<'b, R: Read>(input: &mut R, buf: &'b mut [u8]) -> (&'b [u8], io::Result<()>)
    ensures within { length result.0.now ≤ length buf.old }
    ensures bytes { Consumes (R.remaining input.old) (R.remaining input.new) result.0.now }
    ensures whole { IsOk result.1 → length result.0.now < length buf.old → IsAtEnd (R.remaining input.new) }
{
    let mut count = 0;
    while count < buf.len() {
        match input.read(&mut buf[count..]) {
            Ok(0) => break,
            Ok(more) => count += more,
            Err(error) => return (&buf[..count], Err(error)),
        }
    }
    (&buf[..count], Ok(()))
}
