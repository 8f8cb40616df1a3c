// The three writes: one form more, one line more, and cells that become 0. After the start nothing else changes a table.
#![tactic(auto)]

ghost use Rattle.std.specs.Prelude.{◌≡◌};
ghost use Rattle.rows.specs.Limits.{unknowns};
ghost use Rattle.ledger.specs.Literals.{joined};
ghost use Rattle.session.specs.Cells.{tables};
ghost use Rattle.session.specs.Effects.{form_written, freed, Between};
ghost use Rattle.writes.specs.Placing.{FormPlace, LinePlace, LinePlaced};

use session::clear::clear;
use session::state::{Mark, Session};

// One form more, behind so many.
pub fn add_form(count: u16, forms: &mut [i32], cells: &[i32])
    requires { FormPlace unknowns count forms.old cells.now }
    ensures { forms.new ≡ form_written unknowns count cells.now forms.old }
{
    let at = Session::FORM_CELLS * usize::from(count);
    forms[at..at + Session::FORM_CELLS].copy_from_slice(cells);
}

// One line more, behind so many lines of so many literals: the literals of a and b, joined. It says where the line ends. The
// origin is the number that its cell takes, whichever that is.
pub fn add_line(
    behind: u16,
    literals: u16,
    pool: &mut [u16],
    lines: &mut [u16],
    a: &[u16],
    b: &[u16],
    origin: u16,
) -> u16
    requires { LinePlace behind literals pool.old lines.old (joined a.now b.now) }
    ensures { LinePlaced behind literals pool.old lines.old (record { origin = origin; literals = joined a.now b.now }) result pool.new lines.new }
{
    let at = usize::from(literals);
    let count = literals::join::join_into(&mut pool[at..], a, b);
    let end = literals + count as u16;
    let k = Session::LINE_CELLS * usize::from(behind);
    lines[k] = end;
    lines[k + 1] = origin;
    end
}

// Every cell between two marks becomes 0.
#[tactic(auto, using(crate::proofs::PartLaws::part_cleared))]
pub fn free_cells(from: Mark, to: Mark, forms: &mut [i32], pool: &mut [u16], lines: &mut [u16])
    requires { Between unknowns from to (tables forms.old pool.old lines.old) }
    ensures { tables forms.new pool.new lines.new ≡ freed unknowns from to (tables forms.old pool.old lines.old) }
{
    let first_form = Session::FORM_CELLS * usize::from(from.forms);
    let form_end = Session::FORM_CELLS * usize::from(to.forms);
    clear(&mut forms[first_form..form_end], 0);
    let first_literal = usize::from(from.literals);
    let literal_end = usize::from(to.literals);
    clear(&mut pool[first_literal..literal_end], 0);
    let first_line = Session::LINE_CELLS * usize::from(from.lines);
    let line_end = Session::LINE_CELLS * usize::from(to.lines);
    clear(&mut lines[first_line..line_end], 0);
}
