// Replays proof files: standard input, or each file that is named, is judged record by record, and what came of it is printed.
#![tactic(auto)]

mod file;
mod input;
mod say;

use std::env::{Env, FillError};
use std::fs::Files;
use std::io::{BufWriter, Write};
use std::{fs, io};

// Room for the longest name of a file.
const NAME_ROOM: usize = 4096;

// The system's numbers for a name that is too long, and for one that is not there.
const TOO_LONG: i32 = 36;

const NOT_THERE: i32 = 22;

fn reason(why: FillError) -> io::Error {
    match why {
        FillError::TooLong => io::Error::from_raw_os_error(TOO_LONG),
        FillError::NotPresent => io::Error::from_raw_os_error(NOT_THERE),
    }
}

// One file. Where there are several, its name is printed first.
fn replay_file<H: Files + Eprint + AllocGlobal, W: Write>(
    rt: &H,
    name: &str,
    several: bool,
    out: &mut W,
) -> io::Result<()> {
    let mut file = match fs::open(rt, name) {
        Ok(file) => file,
        Err(why) => return say::unread(rt, name, why),
    };
    if several {
        say::title(out, name)?;
        out.flush()?;
    }
    file::replay(rt, &mut file, name, out)
}

// The file that argument i names.
fn replay_named<H: Env + Files + Eprint + AllocGlobal, W: Write>(
    rt: &H,
    i: usize,
    several: bool,
    out: &mut W,
) -> io::Result<()> {
    let mut bytes = [0u8; NAME_ROOM];
    let length = match rt.arg(i, &mut bytes) {
        Ok(length) => length,
        Err(why) => return say::unread(rt, "name of a file", reason(why)),
    };
    let Ok(name) = std::str::from_utf8(&bytes[..length]) else {
        let why = io::Error::new(io::ErrorKind::InvalidData, "not UTF-8");
        return say::unread(rt, "name of a file", why);
    };
    replay_file(rt, name, several, out)
}

// How many arguments there are, the program's name among them. Not by `env::args`, which gives none where one is not UTF-8: the files before it
// and behind it are read.
fn arg_count<H: Env>(rt: &H) -> usize {
    for count in 0..usize::MAX {
        if let Err(FillError::NotPresent) = rt.arg(count, &mut []) {
            return count;
        }
    }
    usize::MAX
}

fn main(rt: HostRuntime) -> io::Result<()> {
    let mut out = BufWriter::new(rt.alloc(), rt.stdout())?;
    let count = arg_count(&rt);
    if count < 2 {
        return file::replay(&rt, &mut rt.stdin(), "standard input", &mut out);
    }
    for i in 1..count {
        replay_named(&rt, i, 2 < count, &mut out)?;
    }
    Ok(())
}
