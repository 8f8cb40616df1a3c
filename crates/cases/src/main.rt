// Runs the cases in standard input: records on either side of each bound, fed by value and with the session lent, and sessions and tables
// that are broken one count, mark or cell at a time. Prints what the calls answer.
#![tactic(auto)]

mod change;
mod reading;
mod run;

use std::io;
use std::io::{BufWriter, Read, Write};

// The most bytes of the input that are read.
const MOST: u64 = 65_536;

// What was read before a failure is run all the same.
fn main(rt: HostRuntime) -> io::Result<()> {
    let mut text = Vec::new(rt.alloc());
    let read = rt.stdin().take(MOST).read_to_end(&mut text);
    let mut out = BufWriter::new(rt.alloc(), rt.stdout())?;
    run::run(&mut out, text.as_slice())?;
    out.flush()?;
    read?;
    Ok(())
}
