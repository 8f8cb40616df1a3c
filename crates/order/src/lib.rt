// The order test: one way through the named cells, given up at the first cell that breaks the order. And the standing, which needs it.
#![tactic(auto)]

mod cells;
mod levels;
pub mod standing;

ghost use Rattle.std.specs.Prelude.{◌≡◌, ◌*◌};
ghost use Rattle.rows.specs.Limits.{unknowns};
ghost use Rattle.session.specs.Parts.{Sized, Long};
ghost use Rattle.session.specs.Cells.{named, tables};
ghost use Rattle.session.specs.InOrder.{order};
ghost use Rattle.session.specs.Parts.{all_pass};
ghost use Rattle.session.specs.Answers.{finding_of};
ghost use Rattle.session.specs.Calls.{entry};
ghost use Rattle.walk.specs.Walk.{Exactly};
ghost use Rattle.order.specs.Levels.{Counted};

use session::answers::Refusal;
use session::state::Session;

// Whether the counts are within limits.
fn counts_hold(s: Session) -> bool
    ensures { Exactly result (Counted s) }
{
    s.forms as usize <= Session::MOST_FORMS
        && s.lines as usize <= Session::MOST_LINES
        && s.literals as usize <= Session::MOST_LITERALS
        && s.open as usize <= Session::MOST_LEVELS
}

// The whole test, over the named cells.
fn ordered(s: Session, forms: &[i32], pool: &[u16], lines: &[u16]) -> bool
    requires { Sized unknowns (tables forms.now pool.now lines.now) }
    ensures { result ≡ all_pass (order unknowns s (tables forms.now pool.now lines.now)) }
{
    if !counts_hold(s) {
        return false;
    }
    let count = s.forms as usize;
    if !crate::cells::forms_hold(forms, count) {
        return false;
    }
    if !crate::levels::levels_hold(s, pool, lines) {
        return false;
    }
    if !crate::levels::marks_clear(s) {
        return false;
    }
    if !forms[Session::FORM_CELLS * count..].iter().all(|&x| x == 0) {
        return false;
    }
    if !pool[s.literals as usize..].iter().all(|&x| x == 0) {
        return false;
    }
    lines[Session::LINE_CELLS * (s.lines as usize)..]
        .iter()
        .all(|&x| x == 0)
}

// Whether session and tables are in order; of longer tables the excess is not read.
fn in_order(s: Session, forms: &[i32], pool: &[u16], lines: &[u16]) -> bool
    requires { Long unknowns (tables forms.now pool.now lines.now) }
    ensures { result ≡ all_pass (order unknowns s (named unknowns (tables forms.now pool.now lines.now))) }
{
    ordered(
        s,
        &forms[0..Session::FORM_TABLE],
        &pool[0..Session::POOL],
        &lines[0..Session::LINE_TABLE],
    )
}

// What every call tests first: the sizes of the tables, and then that session and tables are in order.
pub fn entered(s: Session, forms: &[i32], pool: &[u16], lines: &[u16]) -> Result<(), Refusal>
    ensures { finding_of result ≡ entry unknowns s (tables forms.now pool.now lines.now) }
{
    session::start::sized(forms, pool, lines)?;
    if in_order(s, forms, pool, lines) {
        return Ok(());
    }
    Err(Refusal::NotInOrder)
}
