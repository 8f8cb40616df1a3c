// What calls answer: what an acceptance made, what stands, and why a call was refused. Each refusal has its number in the specification.
ghost use Rattle.session.specs.Parts.{HasNumber};

use std::fmt;

// Why a call is refused.
#[derive(Clone, Copy, PartialEq, Eq)]
pub enum Refusal {
    ShortTable,
    NotInOrder,
    WrongLength,
    UnknownMark,
    CountOutside,
    IllegalContent,
    NoRoom,
    NotInForce,
    NotAscending,
    NotAllowed,
    ConditionFails,
    LineTooLong,
    NoLevelOpen,
}

// What an acceptance made: a form or a line with its number, or the count of open levels.
#[derive(Clone, Copy, PartialEq, Eq)]
pub enum Made {
    Form(u16),
    Line(u16),
    Level(u16),
}

// The refusal's number.
impl From<Refusal> for u16 {
    ghost from_gives = { HasNumber };

    fn from(r: Refusal) -> u16 {
        match r {
            Refusal::ShortTable => 1,
            Refusal::NotInOrder => 2,
            Refusal::WrongLength => 3,
            Refusal::UnknownMark => 4,
            Refusal::CountOutside => 5,
            Refusal::IllegalContent => 6,
            Refusal::NoRoom => 7,
            Refusal::NotInForce => 8,
            Refusal::NotAscending => 9,
            Refusal::NotAllowed => 10,
            Refusal::ConditionFails => 11,
            Refusal::LineTooLong => 12,
            Refusal::NoLevelOpen => 13,
        }
    }
}

impl fmt::Display for Refusal {
    fn fmt<W: fmt::Write>(&self, f: &mut fmt::Formatter<W>) -> fmt::Result {
        let number = u16::from(*self);
        write!(f, "refused {number}")
    }
}

impl fmt::Display for Made {
    fn fmt<W: fmt::Write>(&self, f: &mut fmt::Formatter<W>) -> fmt::Result {
        match self {
            Made::Form(n) => write!(f, "form {n}"),
            Made::Line(n) => write!(f, "line {n}"),
            Made::Level(n) => write!(f, "level {n}"),
        }
    }
}
