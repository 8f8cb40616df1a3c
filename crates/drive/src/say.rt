// Prints: what a run came to, the session, and a sum over each table.
use printing::stop_number;
use session::state::{Mark, Session};
use std::io;
use std::io::Write;
use stream::Ran;
use trial::Trial;

// Records accepted, bytes accepted and the stopping number.
pub fn print_run<W: Write>(out: &mut W, ran: Ran) -> io::Result<()> {
    let stop = stop_number(ran.stop);
    writeln!(out, "run {} {} {stop}", ran.records, ran.bytes)
}

fn print_mark<W: Write>(out: &mut W, mark: Mark) -> io::Result<()> {
    write!(out, " {} {} {}", mark.forms, mark.lines, mark.literals)
}

// The counts, and then every mark.
fn print_session<W: Write>(out: &mut W, session: Session) -> io::Result<()> {
    write!(out, "session")?;
    print_mark(out, session.counts())?;
    write!(out, " {}", session.open)?;
    for mark in session.marks {
        print_mark(out, mark)?;
    }
    writeln!(out)
}

// A sum over cells, modulo 2^32.
fn sum<T: Copy, F: Fn(T) -> u32>(cells: &[T], number: F) -> u32
    requires { F.IsAlwaysCallable number }
{
    cells.iter().fold(0u32, |sum, &cell| {
        sum.wrapping_mul(31).wrapping_add(number(cell))
    })
}

// The two lines after each answer.
pub fn print_trial<W: Write>(out: &mut W, trial: &Trial) -> io::Result<()> {
    print_session(out, trial.session)?;
    let forms = sum(trial.forms.lent(), |cell| cell.cast_unsigned());
    let pool = sum(trial.pool.lent(), u32::from);
    let lines = sum(trial.lines.lent(), u32::from);
    writeln!(out, "cells {forms} {pool} {lines}")
}
