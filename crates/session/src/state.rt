// The session itself, by value, with its limits: each has one name here, and those of rows and forms are taken from the rows.
ghost use Rattle.std.specs.Prelude.{◌≡◌};
ghost use Rattle.session.specs.Cells.{fresh_session, counts_of};
ghost use Rattle.session.specs.Parts.{all_limits};

// The counts as a level opened.
#[derive(Clone, Copy, PartialEq, Eq, Default)]
pub struct Mark {
    pub forms: u16,
    pub lines: u16,
    pub literals: u16,
}

// The limits of a session: the unknowns; the size of a constant or coefficient, of a divisor and of a multiplier; the most terms of a sum,
// forms, lines, literals of all lines together and open levels; and the most literals of a line.
#[derive(Clone, Copy)]
pub struct Limits {
    pub unknowns: usize,
    pub number: i32,
    pub divisor: i32,
    pub multiplier: i32,
    pub terms: usize,
    pub forms: usize,
    pub lines: usize,
    pub literals: usize,
    pub levels: usize,
    pub line: usize,
}

// How much of each table is in use, and the marks of the open levels: an array beside their count, since nothing is taken from a heap, and since the
// marks above the count are part of what `withdrawal_exact` compares.
#[derive(Clone, Copy, PartialEq, Eq)]
pub struct Session {
    pub forms: u16,
    pub lines: u16,
    pub literals: u16,
    pub open: u16,
    pub marks: [Mark; Session::MOST_LEVELS],
}

impl Session {
    pub const MOST_FORMS: usize = 256;

    pub const MOST_LINES: usize = 512;

    pub const MOST_LITERALS: usize = 4096;

    pub const MOST_LEVELS: usize = 8;

    // The most literals of a line.
    pub const LONGEST_LINE: usize = 32;

    pub const UNKNOWNS: usize = rows::UNKNOWNS;

    // The size of a constant or coefficient, of a divisor, and of a multiplier.
    pub const LARGEST_NUMBER: i32 = rows::LARGEST_NUMBER;

    pub const LARGEST_DIVISOR: i32 = rows::LARGEST_DIVISOR;

    pub const LARGEST_MULTIPLIER: i32 = rows::LARGEST_MULTIPLIER;

    // The most terms of a sum.
    pub const MOST_TERMS: usize = rows::MOST_TERMS;

    pub const ROW_CELLS: usize = rows::ROW_CELLS;

    pub const FORM_CELLS: usize = rows::FORM_CELLS;

    // A line's end in the pool, and its origin.
    pub const LINE_CELLS: usize = 2;

    pub const PREMISE: u16 = 1;

    pub const DERIVED: u16 = 2;

    // The cells of each table.
    pub const FORM_TABLE: usize = Session::MOST_FORMS * Session::FORM_CELLS;

    pub const POOL: usize = Session::MOST_LITERALS;

    pub const LINE_TABLE: usize = Session::MOST_LINES * Session::LINE_CELLS;

    // All limits together, which ties each of them to its one definition.
    pub fn limits() -> Limits
        ensures { result ≡ all_limits }
    {
        Limits {
            unknowns: Session::UNKNOWNS,
            number: Session::LARGEST_NUMBER,
            divisor: Session::LARGEST_DIVISOR,
            multiplier: Session::LARGEST_MULTIPLIER,
            terms: Session::MOST_TERMS,
            forms: Session::MOST_FORMS,
            lines: Session::MOST_LINES,
            literals: Session::MOST_LITERALS,
            levels: Session::MOST_LEVELS,
            line: Session::LONGEST_LINE,
        }
    }

    // A session with nothing in it.
    pub fn fresh() -> Session
        ensures { result ≡ fresh_session }
    {
        Session {
            forms: 0,
            lines: 0,
            literals: 0,
            open: 0,
            marks: [Mark::default(); Session::MOST_LEVELS],
        }
    }

    // The present counts.
    pub fn counts(self) -> Mark
        ensures { result ≡ counts_of self }
    {
        Mark {
            forms: self.forms,
            lines: self.lines,
            literals: self.literals,
        }
    }
}
