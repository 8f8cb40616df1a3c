// Reads commands from standard input until the end, calls the library as they say, on any session and any tables, and prints after each
// call what it answered, the session and a sum over each table.
#![tactic(auto)]

mod commands;
mod failure;
mod input;
mod say;
mod steps;

use failure::Failure;
use std::io;
use std::io::{BufWriter, Write};

fn main(rt: HostRuntime) -> io::Result<()> {
    let mut out = BufWriter::new(rt.alloc(), rt.stdout())?;
    let mut buffer = [0u8; input::BUFFER];
    match input::drive(&mut rt.stdin(), &mut out, &mut buffer) {
        Ok(()) => {}
        Err(Failure::BadCommand(bad)) => writeln!(out, "{bad}")?,
        Err(Failure::Unreadable) => eprintln!(rt; "standard input cannot be read")?,
        Err(Failure::Unwritable(why)) => return Err(why),
    }
    out.flush()
}
