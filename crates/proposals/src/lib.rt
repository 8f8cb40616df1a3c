// What a record proposes: a form, a line, a level more or a level less; and what is lent for it. Later fields of a line get their default here,
// so that a rule that has nothing to say of one never names it.
#![tactic(auto)]

pub mod derived;

ghost use Rattle.std.specs.Prelude.{◌≡◌};
ghost use Rattle.proposals.specs.Proposing.{derived_from, premise_from, blank};

use session::state::Session;

// The cells of a form, or the multipliers of a sum, and the two lists whose literals a line joins.
#[derive(Drop)]
pub struct Scratch {
    pub cells: [i32; Session::MOST_TERMS],
    pub first: [u16; Session::LONGEST_LINE],
    pub second: [u16; Session::LONGEST_LINE],
}

impl Scratch {
    pub fn new() -> Scratch
        ensures { result ≡ blank }
    {
        Scratch {
            cells: [0; Session::MOST_TERMS],
            first: [0; Session::LONGEST_LINE],
            second: [0; Session::LONGEST_LINE],
        }
    }
}

// A line is the first so many literals of one lent list joined with the first so many of the other: counts beside the scratch's arrays, as
// nothing is taken from a heap. The origin is its number in a cell, which `add_line` takes.
#[derive(Clone, Copy, PartialEq, Eq)]
pub struct NewLine {
    pub origin: u16,
    pub first: usize,
    pub second: usize,
}

impl NewLine {
    pub fn derived(first: usize, second: usize) -> NewLine
        ensures { result ≡ derived_from first second }
    {
        NewLine {
            origin: Session::DERIVED,
            first,
            second,
        }
    }

    pub fn premise(second: usize) -> NewLine
        ensures { result ≡ premise_from second }
    {
        NewLine {
            origin: Session::PREMISE,
            first: 0,
            second,
        }
    }
}

// The cells of a form, and the literals of a line, stand in the scratch.
#[derive(Clone, Copy, PartialEq, Eq)]
pub enum Proposal {
    Form,
    Line(NewLine),
    Opens,
    Withdraws,
}
