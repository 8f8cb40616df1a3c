// Reads standard input in pieces, and obeys every command that is there whole. What is left of a piece stands before the next one.
ghost use Rattle.std.specs.Prelude.{◌≡◌, ◌≤◌, length, IfOk};

use crate::failure::Failure;
use crate::steps::steps;
use std::io::{Read, Write};
use trial::{BadCommand, Trial};

// Room for the longest command, of 65,538 bytes, and much more, so that there is always room to read into.
pub const BUFFER: usize = 131_072;

// Where the bytes end after one read, behind those that wait: at the same place, if there is nothing more. At the end, bytes that wait are a
// command cut short. A failed read is no end of the input. A buffer and a
// count: to read into a slice that grows, the rest of the buffer has to be kept beside it.
fn receive<R: Read>(input: &mut R, buffer: &mut [u8], held: usize) -> Result<usize, Failure>
    requires { held ≤ length buffer.old }
    ensures end { IfOk result (λ end. end ≤ length buffer.new) }
    ensures left { length buffer.new ≡ length buffer.old }
{
    let Ok(got) = input.read(&mut buffer[held..]) else {
        return Err(Failure::Unreadable);
    };
    if got == 0 && 0 < held {
        return Err(Failure::BadCommand(BadCommand));
    }
    Ok(held + got)
}

// Nothing says that the input ends, and a loop has to: its turns are counted, up to a number that no run uses up. What a turn printed is there
// to see before the next one waits for input.
pub fn drive<R: Read, W: Write>(
    input: &mut R,
    out: &mut W,
    buffer: &mut [u8],
) -> Result<(), Failure> {
    let mut trial = Trial::filled(0, 0, 0, 0);
    let mut held: usize = 0;
    for _ in 0..u64::MAX {
        out.flush()?;
        let end = receive(input, buffer, held)?;
        if end == held {
            return Ok(());
        }
        let used = steps(out, &mut trial, &buffer[..end])?;
        buffer.copy_within(used..end, 0);
        held = end - used;
    }
    Ok(())
}
