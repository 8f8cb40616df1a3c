// Runs cases, which are read as `reading.rt` says. The first letter of a step's word tells what is done. start, order and refuted: a start,
// the order test and the question of the standing. feed: the record is fed. Each of these prints its answer. add: the record is fed, and
// nothing is printed. tables, change and print: see `change.rt`.
//
// Before the first case there is a fresh session, and the tables hold only sevens.
use crate::change::{change, lend, print_named};
use crate::reading::{Place, Step};
use printing::{print_answer, print_standing};
use session::answers::{Made, Refusal};
use session::state::Session;
use std::io;
use std::io::Write;
use trial::{BadCommand, Trial};

// What one record comes to by value, and whether it does the same, on a copy, with the session lent.
fn feed(trial: &mut Trial, record: &[u8]) -> (Result<Made, Refusal>, bool) {
    let mut copy = *trial;
    let answer = trial.feed(record);
    let agrees = copy.feed_lent(record) == answer && copy == *trial;
    (answer, agrees)
}

fn print_agrees<W: Write>(out: &mut W, agrees: bool) -> io::Result<()> {
    if agrees {
        return Ok(());
    }
    writeln!(out, "differs when lent")
}

// One step, by the letter that the text names it with, which stands nowhere else; none, if no word was read.
fn act<W: Write>(out: &mut W, trial: &mut Trial, letter: u8, record: &[u8]) -> io::Result<()> {
    match letter {
        0 => Ok(()),
        b's' => print_answer(out, trial.start().map(|()| "started")),
        b'o' => print_answer(out, trial.entered().map(|()| "in order")),
        b'r' => print_standing(out, trial.standing()),
        b'f' => {
            let (answer, agrees) = feed(trial, record);
            print_answer(out, answer)?;
            print_agrees(out, agrees)
        }
        b'a' => {
            let (_, agrees) = feed(trial, record);
            print_agrees(out, agrees)
        }
        b't' => {
            lend(trial, record);
            Ok(())
        }
        b'c' => match change(trial, record) {
            Ok(()) => Ok(()),
            Err(bad) => writeln!(out, "{bad}"),
        },
        b'p' => print_named(out, trial, record),
        _ => writeln!(out, "{BadCommand}"),
    }
}

fn run_step<W: Write>(out: &mut W, trial: &mut Trial, step: &Step) -> io::Result<()> {
    let mut whole = *step;
    whole.take(b' ');
    for _ in 0..whole.times {
        act(out, trial, whole.letter(), whole.record())?;
    }
    Ok(())
}

// Holds what the steps of a case work on, and what the next case begins with.
pub fn run<W: Write>(out: &mut W, text: &[u8]) -> io::Result<()> {
    let mut present = Trial::filled(7, Session::FORM_TABLE, Session::POOL, Session::LINE_TABLE);
    let mut kept = present;
    let mut step = Step::begun(Place::Label);
    for &byte in text {
        if byte == b';' || byte == b'\n' {
            run_step(out, &mut present, &step)?;
        }
        if byte == b'\n' {
            if step.place == Place::Kept {
                kept = present;
            }
            present = kept;
        }
        step.read(out, byte)?;
    }
    Ok(())
}
