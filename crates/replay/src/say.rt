// The lines that are printed of a file: its name, its totals, its counts and what stopped it; or why it cannot be read.
use pieces::Progress;
use printing::stop_number;
use session::answers::Refusal;
use std::io;
use std::io::Write;

// The name of a file.
pub fn title<W: Write>(out: &mut W, name: &str) -> io::Result<()> {
    writeln!(out, "file {name}")
}

// The system's errors end with their number, which is not said.
fn without_number(text: &str) -> &str {
    match text.split_once(" (os error ") {
        Some((words, _)) => words,
        None => text,
    }
}

// A line on standard error: what cannot be read, and why.
pub fn unread<H: Eprint + AllocGlobal>(rt: &H, what: &str, why: io::Error) -> io::Result<()> {
    let text = format!(in rt.alloc(); "{why}")?;
    let words = without_number(text.as_str());
    eprintln!(rt; "{what}: {words}")
}

pub fn totals<W: Write>(
    out: &mut W,
    progress: Progress,
    stop: Result<(), Refusal>,
) -> io::Result<()> {
    let s = progress.session;
    writeln!(out, "records {}", progress.records)?;
    writeln!(out, "bytes {}", progress.bytes)?;
    writeln!(out, "forms {}", s.forms)?;
    writeln!(out, "lines {}", s.lines)?;
    writeln!(out, "literals {}", s.literals)?;
    writeln!(out, "open {}", s.open)?;
    writeln!(out, "stop {}", stop_number(stop))
}
