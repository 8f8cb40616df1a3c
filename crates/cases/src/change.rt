// Changes a trial by hand, and prints parts of it. What is changed or printed is named by a word, of which the first letter counts; the
// numbers stand at the record's end.
use printing::print_numbers;
use session::state::{Mark, Session};
use std::io;
use std::io::Write;
use trial::{BadCommand, Trial};

// The number of two bytes that begins so many bytes before the end, 0 if there is none.
fn number(record: &[u8], back: usize) -> u16 {
    let Some(at) = record.len().checked_sub(back) else {
        return 0;
    };
    let bytes = record[at..].first_chunk();
    bytes.map_or(0, |&bytes| u16::from_le_bytes(bytes))
}

fn place(record: &[u8], back: usize) -> usize {
    number(record, back) as usize
}

// tables: how many cells of the forms, the pool and the lines are lent.
pub fn lend(trial: &mut Trial, record: &[u8]) {
    trial.forms.lend(place(record, 6));
    trial.pool.lend(place(record, 4));
    trial.lines.lend(place(record, 2));
}

fn change_counts(session: &mut Session, record: &[u8]) {
    session.forms = number(record, 8);
    session.lines = number(record, 6);
    session.literals = number(record, 4);
    session.open = number(record, 2);
}

fn change_mark(session: &mut Session, record: &[u8]) -> Result<(), BadCommand> {
    let mark = session.marks.get_mut(place(record, 8)).ok_or(BadCommand)?;
    mark.forms = number(record, 6);
    mark.lines = number(record, 4);
    mark.literals = number(record, 2);
    Ok(())
}

// A cell of the forms has four bytes.
fn change_form(trial: &mut Trial, record: &[u8]) -> Result<(), BadCommand> {
    let cell = record.last_chunk().ok_or(BadCommand)?;
    trial.forms.set(place(record, 6), i32::from_le_bytes(*cell))
}

// By the first letter, here and when it is printed: it is read once, where it is acted on.

// change: counts of forms, lines, literals and open levels; mark, a place, forms, lines and literals; or forms, pool or lines, a place and
// what the cell there becomes.
pub fn change(trial: &mut Trial, record: &[u8]) -> Result<(), BadCommand> {
    match record.first() {
        Some(b'c') => {
            change_counts(&mut trial.session, record);
            Ok(())
        }
        Some(b'm') => change_mark(&mut trial.session, record),
        Some(b'f') => change_form(trial, record),
        Some(b'p') => trial.pool.set(place(record, 4), number(record, 2)),
        Some(b'l') => trial.lines.set(place(record, 4), number(record, 2)),
        _ => Err(BadCommand),
    }
}

// So many cells from this place on.
fn print_part<W: Write>(
    out: &mut W,
    word: &[u8],
    cells: &[u16],
    from: usize,
    count: usize,
) -> io::Result<()> {
    match cells.get(from..).and_then(|rest| rest.get(..count)) {
        Some(part) => print_numbers(out, word, part),
        None => writeln!(out, "{BadCommand}"),
    }
}

// print: counts; pool or lines, a place and how many cells from there on; or used, the cells of both that are in use.
pub fn print_named<W: Write>(out: &mut W, trial: &Trial, record: &[u8]) -> io::Result<()> {
    let s = trial.session;
    let from = place(record, 4);
    let count = place(record, 2);
    match record.first() {
        Some(b'c') => print_numbers(out, b"counts", &[s.forms, s.lines, s.literals, s.open]),
        Some(b'p') => print_part(out, b"pool", &trial.pool.cells, from, count),
        Some(b'l') => print_part(out, b"lines", &trial.lines.cells, from, count),
        Some(b'u') => {
            print_part(out, b"pool", &trial.pool.cells, 0, s.literals as usize)?;
            print_part(out, b"lines", &trial.lines.cells, 0, 2 * s.lines as usize)
        }
        _ => writeln!(out, "{BadCommand}"),
    }
}
