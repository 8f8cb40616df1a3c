// One proof file, from a start to its end or to the first record that is refused.
use crate::input::fill;
use pieces::{Next, Progress};
use session::answers::Refusal;
use session::state::Session;
use std::io;
use std::io::{Read, Write};

// Large, so that the order of the tables is tested seldom: once for each piece. No record is nearly as long.
const BUFFER: usize = 131_072;

// How far a file that is decided was judged, and what stopped it.
#[derive(Clone, Copy)]
struct Decided {
    progress: Progress,
    stop: Result<(), Refusal>,
}

// Nothing says that a file ends, so the pieces are counted, up to a number that no file uses up. What is read before a failure is judged too:
// a bad record in it decides the file whatever follows. An error is why a file that is not decided is not.
fn judge<R: Read>(
    file: &mut R,
    forms: &mut [i32],
    pool: &mut [u16],
    lines: &mut [u16],
    buffer: &mut [u8],
) -> io::Result<Decided> {
    let begun = session::start::start(forms, pool, lines);
    let mut progress = Progress {
        session: begun.session,
        records: 0,
        bytes: 0,
    };
    let mut held = 0;
    for _ in 0..u64::MAX {
        let filled = fill(file, buffer, held);
        let is_last = filled.is_last.unwrap_or(false);
        let judged = pieces::judge_piece(
            progress,
            forms,
            pool,
            lines,
            buffer,
            filled.count,
            is_last,
        );
        progress = judged.progress;
        match judged.next {
            Next::Decided(stop) => return Ok(Decided { progress, stop }),
            Next::GoesOn(kept) => held = kept,
        }
        if filled.is_last? {
            return Err(io::Error::from(io::ErrorKind::UnexpectedEof));
        }
    }
    Err(io::Error::from(io::ErrorKind::FileTooLarge))
}

// All that is printed has been written once this is over, and before a reason is said.
pub fn replay<R: Read, W: Write, H: Eprint + AllocGlobal>(
    rt: &H,
    file: &mut R,
    name: &str,
    out: &mut W,
) -> io::Result<()> {
    let mut forms = [0i32; Session::FORM_TABLE];
    let mut pool = [0u16; Session::POOL];
    let mut lines = [0u16; Session::LINE_TABLE];
    let mut buffer = [0u8; BUFFER];
    let Decided { progress, stop } = match judge(
        file,
        &mut forms,
        &mut pool,
        &mut lines,
        &mut buffer,
    ) {
        Ok(decided) => decided,
        Err(why) => {
            out.flush()?;
            return crate::say::unread(rt, name, why);
        }
    };
    let standing = order::standing::standing(progress.session, &forms, &pool, &lines);
    crate::say::totals(out, progress, stop)?;
    printing::print_standing(out, standing)?;
    out.flush()
}
