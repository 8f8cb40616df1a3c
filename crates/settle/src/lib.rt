// One place settles what a record proposes: it tests the room, and writes. After the start no cell is written from elsewhere.
#![tactic(auto)]

ghost use Rattle.std.specs.Prelude.{◌≡◌, ◌-◌, ◌≤◌, ◌<◌, length};
ghost use Rattle.rows.specs.Limits.{unknowns};
ghost use Rattle.ledger.specs.Limits.{most_levels};
ghost use Rattle.ledger.specs.Literals.{joined};
ghost use Rattle.ledger.specs.Settles.{opens, withdraws};
ghost use Rattle.session.specs.Limits.{form_cells, form_table};
ghost use Rattle.session.specs.Cells.{Tables, tables};
ghost use Rattle.session.specs.Answers.{answer_of};
ghost use Rattle.proposals.specs.Proposing.{scratch_of, proposal_of, FitsIfMade};
ghost use Rattle.settle.specs.Settling.{with_counts, with_levels, after, answer_by, InPlace, Seen, Settles, LineTables, KeepsForm, KeepsLine};

use proposals::Proposal;
use session::answers::{Made, Refusal};
use session::state::{Mark, Session};

// What a record can change of a session: the counts, the count of open levels and the last of their marks (where none is open, mark 0).
#[derive(Clone, Copy)]
pub struct Top {
    pub counts: Mark,
    pub open: u16,
    pub last: Mark,
}

// A level more or less: what the counts, the count of open levels and one mark become.
#[derive(Clone, Copy)]
pub struct Levels {
    pub counts: Mark,
    pub open: u16,
    pub at: usize,
    pub mark: Mark,
}

// What settling does to a session: a form or a line more, with the counts then; or a level more or less.
#[derive(Clone, Copy)]
pub enum Change {
    Adds(Made, Mark),
    Moves(Levels),
}

// The place of the last mark where so many levels are open.
pub fn last_place(levels: u16) -> usize
    ensures { result ≡ levels - 1 }
{
    levels.saturating_sub(1) as usize
}

// The session with other counts.
fn counted(s: Session, counts: Mark) -> Session
    ensures { result ≡ with_counts s counts }
{
    Session {
        forms: counts.forms,
        lines: counts.lines,
        literals: counts.literals,
        ..s
    }
}

// The session with other levels.
fn levelled(s: Session, to: Levels) -> Session
    requires { to.at < most_levels }
    ensures { result ≡ with_levels s to }
{
    let mut next = counted(s, to.counts);
    next.open = to.open;
    next.marks[to.at] = to.mark;
    next
}

// What is answered where this is what settling does, or why it does nothing.
pub fn answer_of(c: Result<Change, Refusal>) -> Result<Made, Refusal>
    ensures { answer_of result ≡ answer_by c }
{
    match c? {
        Change::Adds(made, _) => Ok(made),
        Change::Moves(to) => Ok(Made::Level(to.open)),
    }
}

// The session afterwards, which a refusal leaves as it was.
pub fn apply_to(s: Session, c: Result<Change, Refusal>) -> Session
    requires { InPlace c }
    ensures { result ≡ after s c }
{
    match c {
        Ok(Change::Adds(_, counts)) => counted(s, counts),
        Ok(Change::Moves(to)) => levelled(s, to),
        Err(_) => s,
    }
}

// One form more.
fn keep_form(top: Top, forms: &mut [i32], cells: &[i32]) -> Result<Change, Refusal>
    requires { (length forms.old ≡ form_table unknowns) × (length cells.now ≡ form_cells unknowns) }
    ensures { KeepsForm unknowns top forms.old cells.now result forms.new }
{
    let counts = top.counts;
    if Session::MOST_FORMS <= counts.forms as usize {
        return Err(Refusal::NoRoom);
    }
    writes::add_form(counts.forms, forms, cells);
    let made = Made::Form(counts.forms);
    let more = Mark {
        forms: counts.forms + 1,
        lines: counts.lines,
        literals: counts.literals,
    };
    Ok(Change::Adds(made, more))
}

// One line more: the literals of a and b, joined. The origin is the number that `add_line` writes.
fn keep_line(
    top: Top,
    pool: &mut [u16],
    lines: &mut [u16],
    a: &[u16],
    b: &[u16],
    origin: u16,
) -> Result<Change, Refusal>
    requires { LineTables top pool.old lines.old }
    ensures { KeepsLine unknowns top pool.old lines.old (record { origin = origin; literals = joined a.now b.now }) result pool.new lines.new }
{
    let counts = top.counts;
    if Session::MOST_LINES <= counts.lines as usize {
        return Err(Refusal::NoRoom);
    }
    let free = Session::MOST_LITERALS - counts.literals as usize;
    if literals::join::longer_than(a, b, free) {
        return Err(Refusal::NoRoom);
    }
    let end = writes::add_line(counts.lines, counts.literals, pool, lines, a, b, origin);
    let made = Made::Line(counts.lines);
    let more = Mark {
        forms: counts.forms,
        lines: counts.lines + 1,
        literals: end,
    };
    Ok(Change::Adds(made, more))
}

// One level more: its mark is the present counts.
fn open_level(top: Top) -> Result<Change, Refusal>
    requires { top.«open» ≤ most_levels }
    ensures { (t : Tables) → Settles unknowns top t opens result t }
{
    if Session::MOST_LEVELS <= top.open as usize {
        return Err(Refusal::NoRoom);
    }
    let counts = top.counts;
    Ok(Change::Moves(Levels {
        counts,
        open: top.open + 1,
        at: top.open as usize,
        mark: counts,
    }))
}

// One level less: the counts return to the last mark, and every freed cell and the mark become 0. `Seen` stays a clause here and below: it speaks of
// the top beside three tables, and of no one value.
fn close_level(
    top: Top,
    forms: &mut [i32],
    pool: &mut [u16],
    lines: &mut [u16],
) -> Result<Change, Refusal>
    requires { Seen unknowns top (tables forms.old pool.old lines.old) }
    ensures { Settles unknowns top (tables forms.old pool.old lines.old) withdraws result (tables forms.new pool.new lines.new) }
{
    if top.open == 0 {
        return Err(Refusal::NoLevelOpen);
    }
    let last = top.last;
    let counts = top.counts;
    writes::free_cells(last, counts, forms, pool, lines);
    Ok(Change::Moves(Levels {
        counts: last,
        open: top.open - 1,
        at: (top.open - 1) as usize,
        mark: Mark::default(),
    }))
}

// A proposal, or the refusal that stands for it, on tables that are cut to their named cells and in order, with the cells of its form and the two
// lists of its line: whichever lists fit, so that they need not be a scratch.
pub fn settle(
    top: Top,
    forms: &mut [i32],
    pool: &mut [u16],
    lines: &mut [u16],
    p: Result<Proposal, Refusal>,
    cells: &[i32],
    first: &[u16],
    second: &[u16],
) -> Result<Change, Refusal>
    requires { Seen unknowns top (tables forms.old pool.old lines.old) × (form_cells unknowns ≤ length cells.now) × FitsIfMade p (scratch_of cells.now first.now second.now) }
    ensures { Settles unknowns top (tables forms.old pool.old lines.old) (proposal_of p (scratch_of cells.now first.now second.now)) result (tables forms.new pool.new lines.new) }
{
    // No `?`: it copies what is proposed once more.
    let made = match p {
        Ok(made) => made,
        Err(why) => return Err(why),
    };
    match made {
        Proposal::Form => keep_form(top, forms, &cells[..Session::FORM_CELLS]),
        Proposal::Line(line) => {
            let a = &first[..line.first];
            let b = &second[..line.second];
            keep_line(top, pool, lines, a, b, line.origin)
        }
        Proposal::Opens => open_level(top),
        Proposal::Withdraws => close_level(top, forms, pool, lines),
    }
}
