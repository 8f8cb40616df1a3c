// A session with room for its three tables, all by value: what is done to a copy is seen in that copy alone. The programs that try the library
// work on it.
#![tactic(auto)]

ghost use Rattle.std.specs.Prelude.{◌≤◌};

pub mod calls;
pub mod table;

use session::state::Session;
use std::fmt;
use table::Table;

// 64 cells more than the limits name.
pub const FORM_ROOM: usize = Session::FORM_TABLE + 64;

pub const POOL_ROOM: usize = Session::POOL + 64;

pub const LINE_ROOM: usize = Session::LINE_TABLE + 64;

#[derive(Clone, Copy, PartialEq, Eq)]
pub struct Trial {
    pub session: Session,
    pub forms: Table<i32, FORM_ROOM>,
    pub pool: Table<u16, POOL_ROOM>,
    pub lines: Table<u16, LINE_ROOM>,
}

impl Trial {
    // The fresh session, over tables that hold only this number, with so many cells lent.
    pub fn filled(number: u16, forms: usize, pool: usize, lines: usize) -> Trial
        ensures fits { (result.forms.lent ≤ FORM_ROOM) × (result.pool.lent ≤ POOL_ROOM) × (result.lines.lent ≤ LINE_ROOM) }
    {
        Trial {
            session: Session::fresh(),
            forms: Table::filled(i32::from(number), forms),
            pool: Table::filled(number, pool),
            lines: Table::filled(number, lines),
        }
    }
}

// What a program is told to do and cannot.
#[derive(Clone, Copy)]
pub struct BadCommand;

impl fmt::Display for BadCommand {
    fn fmt<W: fmt::Write>(&self, f: &mut fmt::Formatter<W>) -> fmt::Result {
        write!(f, "bad command")
    }
}
