// A stream of records: fed from its front until it ends or a record is refused.
#![tactic(auto)]

ghost use Rattle.std.specs.Prelude.{◌≡◌};
ghost use Rattle.rows.specs.Limits.{unknowns};
ghost use Rattle.ledger.specs.Split.{records_of};
ghost use Rattle.session.specs.Answers.{finding_of};
ghost use Rattle.session.specs.Cells.{Tables, tables};
ghost use Rattle.laid.specs.Held.{Held};
ghost use Rattle.settle.specs.Settling.{Seen};
ghost use Rattle.checker.specs.Feed.{stepped};
ghost use Rattle.stream.specs.Run.{totals, each_by, stop_number, totals_of, Runs};
ghost use Rattle.stream.specs.Walk.{session_with, FrontStep};

use checker::change::change_over;
use proposals::Scratch;
use session::answers::Refusal;
use session::state::{Mark, Session};
use settle::{Change, Top};

// The session afterwards, how many records and bytes were accepted, and what stopped it: a refusal, or the end of the stream.
#[derive(Clone, Copy)]
pub struct Ran {
    pub session: Session,
    pub records: usize,
    pub bytes: usize,
    pub stop: Result<(), Refusal>,
}

// What the front record of a stream changes, or why it is refused, and how many bytes it has.
#[derive(Clone, Copy)]
struct Step {
    change: Result<Change, Refusal>,
    size: usize,
}

// On tables that are cut to their named cells and in order. A record of a wrong shape is all that is left.
fn front_step(
    top: Top,
    forms: &mut [i32],
    pool: &mut [u16],
    lines: &mut [u16],
    rest: &[u8],
    scratch: &mut Scratch,
) -> Step
    requires { Seen unknowns top (tables forms.old pool.old lines.old) }
    ensures { FrontStep unknowns top (tables forms.old pool.old lines.old) rest.now result.change result.size (tables forms.new pool.new lines.new) }
{
    match records::shape::read_front(rest) {
        Err(why) => Step {
            change: Err(why),
            size: rest.len(),
        },
        Ok(front) => {
            let size = front.size;
            let bytes = &rest[0..size];
            let change = change_over(top, forms, pool, lines, bytes, front.mark, scratch);
            Step { change, size }
        }
    }
}

fn ended(
    counts: Mark,
    open: u16,
    marks: [Mark; Session::MOST_LEVELS],
    records: usize,
    bytes: usize,
    stop: Result<(), Refusal>,
) -> Ran
    ensures { (t : Tables) → totals_of result t ≡ totals records bytes (stop_number (finding_of stop)) (session_with counts «open» marks) t }
{
    let session = Session {
        forms: counts.forms,
        lines: counts.lines,
        literals: counts.literals,
        open,
        marks,
    };
    Ran {
        session,
        records,
        bytes,
        stop,
    }
}

// The records of a stream on such tables. The session's parts stay in place while records pass: copying it for each of them costs more than
// what most of them do. `Held` stays a clause, as in `checker::feed`, and `Seen` above, as in `settle`.
fn steps(s: Session, forms: &mut [i32], pool: &mut [u16], lines: &mut [u16], stream: &[u8]) -> Ran
    requires { Held unknowns s (tables forms.old pool.old lines.old) }
    ensures { totals_of result (tables forms.new pool.new lines.new) ≡ each_by (stepped unknowns) 0 0 s (tables forms.old pool.old lines.old) (records_of stream.now) }
{
    let mut scratch = Scratch::new();
    let mut counts = s.counts();
    let mut open = s.open;
    let mut marks = s.marks;
    let mut records: usize = 0;
    let mut bytes: usize = 0;
    // By the bytes accepted: how far a turn goes is known only when its record is accepted, and they are one of the totals.
    while bytes < stream.len() {
        let rest = &stream[bytes..];
        let last = marks[settle::last_place(open)];
        let top = Top { counts, open, last };
        let step = front_step(top, forms, pool, lines, rest, &mut scratch);
        let counted = records + 1;
        let end = bytes + step.size;
        let change = match step.change {
            Ok(change) => change,
            Err(why) => {
                let stop = Err(why);
                return ended(counts, open, marks, records, bytes, stop);
            }
        };
        match change {
            Change::Adds(_, more) => counts = more,
            Change::Moves(to) => {
                counts = to.counts;
                open = to.open;
                marks[to.at] = to.mark;
            }
        }
        records = counted;
        bytes = end;
    }
    ended(counts, open, marks, records, bytes, Ok(()))
}

// 1 and 2 are tested once, and then each record pays only for itself. Whatever session, tables and stream hold, nothing has to be tested first.
pub fn run(s: Session, forms: &mut [i32], pool: &mut [u16], lines: &mut [u16], stream: &[u8]) -> Ran
    ensures { Runs s (tables forms.old pool.old lines.old) stream.now result (tables forms.new pool.new lines.new) }
{
    if let Err(why) = order::entered(s, forms, pool, lines) {
        return Ran {
            session: s,
            records: 0,
            bytes: 0,
            stop: Err(why),
        };
    }
    steps(
        s,
        &mut forms[0..Session::FORM_TABLE],
        &mut pool[0..Session::POOL],
        &mut lines[0..Session::LINE_TABLE],
        stream,
    )
}
