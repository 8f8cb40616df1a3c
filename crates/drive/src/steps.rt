// Obeys the commands of a text one after the other.
ghost use Rattle.std.specs.Prelude.{◌≤◌, length, IfOk};

use crate::commands::{Call, Command, Reader};
use crate::failure::Failure;
use crate::say::{print_run, print_trial};
use printing::{print_answer, print_standing};
use std::io;
use std::io::Write;
use trial::{BadCommand, FORM_ROOM, LINE_ROOM, POOL_ROOM, Trial};

fn lent(forms: usize, pool: usize, lines: usize) -> Result<Trial, BadCommand> {
    if FORM_ROOM < forms || POOL_ROOM < pool || LINE_ROOM < lines {
        return Err(BadCommand);
    }
    Ok(Trial::filled(0, forms, pool, lines))
}

// A call, and its answer.
fn call<W: Write>(out: &mut W, trial: &mut Trial, call: Call) -> io::Result<()> {
    match call {
        Call::Start => print_answer(out, trial.start().map(|()| "started")),
        Call::Standing => print_standing(out, trial.standing()),
        Call::Feed(record) => print_answer(out, trial.feed(record)),
        Call::Run(bytes) => print_run(out, trial.run(bytes)),
    }
}

fn obey<W: Write>(out: &mut W, trial: &mut Trial, command: Command) -> Result<(), Failure> {
    match command {
        Command::Lend(forms, pool, lines) => {
            *trial = lent(forms as usize, pool as usize, lines as usize)?;
        }
        Command::Resume(session) => trial.session = session,
        Command::Form(at, cell) => trial.forms.set(at as usize, cell)?,
        Command::Literal(at, cell) => trial.pool.set(at as usize, cell)?,
        Command::Line(at, cell) => trial.lines.set(at as usize, cell)?,
        Command::Call(asked) => {
            call(out, trial, asked)?;
            print_trial(out, trial)?;
        }
    }
    Ok(())
}

// Every whole command of the text, up to a bad one. How many bytes they took.
pub fn steps<W: Write>(out: &mut W, trial: &mut Trial, text: &[u8]) -> Result<usize, Failure>
    ensures { IfOk result (λ used. used ≤ length text.now) }
{
    let mut reader = Reader { rest: text };
    let mut used = 0;
    while let Some(command) = reader.command() {
        obey(out, trial, command?)?;
        used = text.len() - reader.rest.len();
    }
    Ok(used)
}
