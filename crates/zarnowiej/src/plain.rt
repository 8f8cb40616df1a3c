// The structs that cross to C and Rust, and what they are of what the calls take and give.
ghost use Rattle.std.specs.Prelude.{◌≡◌};
ghost use Rattle.session.specs.Answers.{answer_of, finding_of};
ghost use Rattle.session.specs.Calls.{start_of, stands_of};
ghost use Rattle.stream.specs.Run.{stop_number};
ghost use Rattle.zarnowiej.specs.Crossing.{mark_in, mark_out, session_in, session_out, begun_by, fed_by, ran, standing_out};

use checker::keep;
use session::answers::{Made, Refusal};
use session::{start, state};

// The counts as a level opened.
#[repr(C)]
#[derive(Clone, Copy)]
pub struct Mark {
    pub forms: u16,
    pub lines: u16,
    pub literals: u16,
}

// How much of each table is in use, how many levels are open, and their marks.
#[repr(C)]
#[derive(Clone, Copy)]
pub struct Session {
    pub forms: u16,
    pub lines: u16,
    pub literals: u16,
    pub open: u16,
    pub marks: [Mark; state::Session::MOST_LEVELS],
}

// What a start gives: the fresh session, and 0 or the number of the refusal.
#[repr(C)]
#[derive(Clone, Copy)]
pub struct Begun {
    pub session: Session,
    pub refusal: u16,
}

// Numbers in place of `Result`, `Option` and `Made`, and structs of their own for the session and its marks, are what C can read.

// What a record gives: the session afterwards, and the answer. `what` is 0 for a refusal, with the refusal's number; 1 for a form and 2 for
// a line, with its number; 3 for a level, with the count of open levels.
#[repr(C)]
#[derive(Clone, Copy)]
pub struct Fed {
    pub session: Session,
    pub what: u16,
    pub number: u16,
}

// What a run gives: the session afterwards, how many records and bytes were accepted, and what stopped it: the refusal's number, or 0 at the
// end.
#[repr(C)]
#[derive(Clone, Copy)]
pub struct Ran {
    pub session: Session,
    pub stop: u16,
    pub records: usize,
    pub bytes: usize,
}

// What the standing is: the refusal's number, or 0 where there is none; then 1 for refuted, with the lowest empty line, or 0 for not
// refuted. What is not said is 0.
#[repr(C)]
#[derive(Clone, Copy)]
pub struct Stands {
    pub refusal: u16,
    pub refuted: u16,
    pub line: u16,
}

impl From<Mark> for state::Mark {
    ghost from_gives = { λ m r. r ≡ mark_in m };

    fn from(m: Mark) -> state::Mark {
        state::Mark {
            forms: m.forms,
            lines: m.lines,
            literals: m.literals,
        }
    }
}

impl From<state::Mark> for Mark {
    ghost from_gives = { λ m r. r ≡ mark_out m };

    fn from(m: state::Mark) -> Mark {
        Mark {
            forms: m.forms,
            lines: m.lines,
            literals: m.literals,
        }
    }
}

// The session as the calls take it.
impl From<Session> for state::Session {
    ghost from_gives = { λ s r. r ≡ session_in s };

    fn from(s: Session) -> state::Session {
        // Here and below by a loop, since an array's `map`, which goes through an owned iterator, costs twice as much.
        let mut marks = [state::Mark::default(); state::Session::MOST_LEVELS];
        for i in 0..state::Session::MOST_LEVELS {
            marks[i] = state::Mark::from(s.marks[i]);
        }
        state::Session {
            forms: s.forms,
            lines: s.lines,
            literals: s.literals,
            open: s.open,
            marks,
        }
    }
}

// The session as it crosses.
impl From<state::Session> for Session {
    ghost from_gives = { λ s r. r ≡ session_out s };

    fn from(s: state::Session) -> Session {
        let mut marks = [Mark::from(state::Mark::default()); state::Session::MOST_LEVELS];
        for i in 0..state::Session::MOST_LEVELS {
            marks[i] = Mark::from(s.marks[i]);
        }
        Session {
            forms: s.forms,
            lines: s.lines,
            literals: s.literals,
            open: s.open,
            marks,
        }
    }
}

// The number of the refusal, or 0 where there is none. What prints has the same without a contract, whose words stand above it.
fn refusal_number(found: Result<(), Refusal>) -> u16
    ensures { result ≡ stop_number (finding_of found) }
{
    match found {
        Ok(()) => 0,
        Err(why) => u16::from(why),
    }
}

impl From<start::Begun> for Begun {
    ghost from_gives = { λ b r. r ≡ begun_by (start_of b.start) (session_out b.session) };

    fn from(begun: start::Begun) -> Begun {
        Begun {
            session: Session::from(begun.session),
            refusal: refusal_number(begun.start),
        }
    }
}

impl From<keep::Fed> for Fed {
    ghost from_gives = { λ f r. r ≡ fed_by (answer_of f.answer) (session_out f.session) };

    fn from(fed: keep::Fed) -> Fed {
        let session = Session::from(fed.session);
        let (what, number) = match fed.answer {
            Ok(Made::Form(number)) => (1, number),
            Ok(Made::Line(number)) => (2, number),
            Ok(Made::Level(number)) => (3, number),
            Err(why) => (0, u16::from(why)),
        };
        Fed {
            session,
            what,
            number,
        }
    }
}

impl From<stream::Ran> for Ran {
    ghost from_gives = { λ x r. r ≡ ran (session_out x.session) x.records x.bytes (stop_number (finding_of x.stop)) };

    fn from(ran: stream::Ran) -> Ran {
        Ran {
            session: Session::from(ran.session),
            stop: refusal_number(ran.stop),
            records: ran.records,
            bytes: ran.bytes,
        }
    }
}

impl From<Result<Option<u16>, Refusal>> for Stands {
    ghost from_gives = { λ x r. r ≡ standing_out (stands_of x) };

    fn from(standing: Result<Option<u16>, Refusal>) -> Stands {
        match standing {
            Ok(Some(line)) => Stands {
                refusal: 0,
                refuted: 1,
                line,
            },
            Ok(None) => Stands {
                refusal: 0,
                refuted: 0,
                line: 0,
            },
            Err(why) => Stands {
                refusal: u16::from(why),
                refuted: 0,
                line: 0,
            },
        }
    }
}
