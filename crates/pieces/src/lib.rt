// A proof file that is judged in pieces, each of them in one buffer behind what the piece before it left unread.
#![tactic(auto)]

ghost use Rattle.std.specs.Prelude.{◌≤◌, ◌≡◌, length, take, drop};
ghost use Rattle.session.specs.Answers.{finding_of};
ghost use Rattle.session.specs.Cells.{tables};
ghost use Rattle.stream.specs.Run.{stop_number};
ghost use Rattle.pieces.specs.Step.{next_by, next_of, Judges};
ghost use Rattle.pieces.specs.Parts.{Holding, Kept};

use session::answers::Refusal;
use session::state::Session;
use std::num::wrapping_add_u64;

// How far a file is judged: the session, and how many records and bytes were accepted.
#[derive(Clone, Copy)]
pub struct Progress {
    pub session: Session,
    pub records: u64,
    pub bytes: u64,
}

// The file goes on behind so many bytes, which stay at the buffer's front; or it is decided: accepted to its end, or stopped by a refusal. Neither
// is a failure of the call.
#[derive(Clone, Copy)]
pub enum Next {
    GoesOn(usize),
    Decided(Result<(), Refusal>),
}

#[derive(Clone, Copy)]
pub struct Judged {
    pub progress: Progress,
    pub next: Next,
}

// Moves the bytes from one place up to another to the front, and says how many they are.
fn keep(buffer: &mut [u8], from: usize, to: usize) -> usize
    requires { to ≤ length buffer.old }
    ensures { Kept (drop from (take to buffer.old)) buffer.old result buffer.new }
{
    let first = from.min(to);
    buffer.copy_within(first..to, 0);
    to - first
}

// More bytes may still change a stop at the end, and one at a record that is cut off.
fn next_by(stop: Result<(), Refusal>, last: bool, kept: usize) -> Next
    ensures { next_of result ≡ next_by (stop_number (finding_of stop)) last kept }
{
    if last {
        return Next::Decided(stop);
    }
    match stop {
        Ok(()) | Err(Refusal::WrongLength) => Next::GoesOn(kept),
        _ => Next::Decided(stop),
    }
}

// A count that no buffer has stands for all its bytes.
fn holding(buffer: &[u8], count: usize) -> usize
    ensures { Holding count buffer.now result }
{
    count.min(buffer.len())
}

// The bytes that the buffer holds, count of them or all that it has, which may be the file's last. Whatever is lent, nothing has to be
// tested first. A buffer and a count, since a count that the buffer has not stands for all of it, and what is kept goes to its front.
pub fn judge_piece(
    progress: Progress,
    forms: &mut [i32],
    pool: &mut [u16],
    lines: &mut [u16],
    buffer: &mut [u8],
    count: usize,
    last: bool,
) -> Judged
    ensures { Judges progress (tables forms.old pool.old lines.old) buffer.old count last result (tables forms.new pool.new lines.new) buffer.new }
{
    let end = holding(buffer, count);
    let held = &buffer[0..end];
    let ran = stream::run(progress.session, forms, pool, lines, held);
    let kept = keep(buffer, ran.bytes, end);
    let session = ran.session;
    Judged {
        progress: Progress {
            session,
            records: wrapping_add_u64(progress.records, ran.records as u64),
            bytes: wrapping_add_u64(progress.bytes, ran.bytes as u64),
        },
        next: next_by(ran.stop, last, kept),
    }
}
