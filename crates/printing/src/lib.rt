// What the checker's calls answer, printed for the programs: each answer is a line of words and numbers.
#![tactic(auto)]

use session::answers::Refusal;
use std::fmt::Display;
use std::io;
use std::io::Write;

// A word and as many numbers as there are, as a line.
pub fn print_numbers<W: Write>(out: &mut W, word: &[u8], numbers: &[u16]) -> io::Result<()> {
    out.write_all(word)?;
    for n in numbers {
        write!(out, " {n}")?;
    }
    writeln!(out)
}

// What a call answered, or why it was refused, as a line.
pub fn print_answer<W: Write, T: Display + Drop>(
    out: &mut W,
    answer: Result<T, Refusal>,
) -> io::Result<()> {
    match answer {
        Ok(what) => writeln!(out, "{what}"),
        Err(why) => writeln!(out, "{why}"),
    }
}

pub fn print_standing<W: Write>(
    out: &mut W,
    standing: Result<Option<u16>, Refusal>,
) -> io::Result<()> {
    match standing {
        Ok(Some(line)) => writeln!(out, "refuted {line}"),
        Ok(None) => writeln!(out, "not refuted"),
        Err(why) => writeln!(out, "{why}"),
    }
}

// The number that stops a run, 0 where all records were accepted.
pub fn stop_number(stop: Result<(), Refusal>) -> u16 {
    stop.err().map_or(0, u16::from)
}
