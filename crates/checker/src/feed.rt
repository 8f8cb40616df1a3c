// One record, of any bytes, on any session and any tables.
ghost use Rattle.std.specs.Prelude.{◌≡◌};
ghost use Rattle.rows.specs.Limits.{unknowns};
ghost use Rattle.session.specs.Cells.{tables};
ghost use Rattle.laid.specs.Held.{Held};
ghost use Rattle.checker.specs.Changes.{Steps};
ghost use Rattle.checker.specs.Feed.{result_of, stepped, Feeds};

use crate::keep::{Fed, refuse};
use session::answers::Refusal;
use session::state::Session;
use settle::{Change, Top};

// What any bytes change, on tables that are cut to their named cells and in order: `Held`, which stays a clause, as it speaks of a session beside three
// tables.
fn change(
    s: Session,
    forms: &mut [i32],
    pool: &mut [u16],
    lines: &mut [u16],
    bytes: &[u8],
) -> Result<Change, Refusal>
    requires { Held unknowns s (tables forms.old pool.old lines.old) }
    ensures { Steps unknowns s (tables forms.old pool.old lines.old) bytes.now result (tables forms.new pool.new lines.new) }
{
    let m = records::shape::read_shape(bytes)?;
    let at = settle::last_place(s.open);
    let last = s.marks[at];
    let top = Top {
        counts: s.counts(),
        open: s.open,
        last,
    };
    crate::change::change_of(top, forms, pool, lines, bytes, m)
}

// And what comes of them.
fn step(s: Session, forms: &mut [i32], pool: &mut [u16], lines: &mut [u16], bytes: &[u8]) -> Fed
    requires { Held unknowns s (tables forms.old pool.old lines.old) }
    ensures { result_of result (tables forms.new pool.new lines.new) ≡ stepped unknowns s (tables forms.old pool.old lines.old) bytes.now }
{
    let change = change(s, forms, pool, lines, bytes);
    Fed {
        session: settle::apply_to(s, change),
        answer: settle::answer_of(change),
    }
}

// The session is given by value and comes back; the tables are lent. Whatever they hold, nothing has to be tested first.
pub fn feed(s: Session, forms: &mut [i32], pool: &mut [u16], lines: &mut [u16], bytes: &[u8]) -> Fed
    ensures { Feeds s (tables forms.old pool.old lines.old) bytes.now result (tables forms.new pool.new lines.new) }
{
    if let Err(why) = order::entered(s, forms, pool, lines) {
        return refuse(s, why);
    }
    step(
        s,
        &mut forms[0..Session::FORM_TABLE],
        &mut pool[0..Session::POOL],
        &mut lines[0..Session::LINE_TABLE],
        bytes,
    )
}
