// Reads cases byte by byte. A case is a line of text: a label, a bar or a >, and steps with a semicolon between. A line that begins with a
// hash is a remark.
//
// The label is printed. After a bar the steps are done on a copy, and later cases know nothing of them; after a > later cases go on from
// what the steps leave.
//
// A step is a word, and then a record, or words and numbers written in the same way. With a number before the word the step is done so many
// times. In a record a letter stands for itself. A number is decimal, of one byte after a point, of four after a colon and of two after
// neither, and a blank ends it. A star fills a form up with zeros.
ghost use Rattle.std.specs.Prelude.{◌≤◌, IfSome};
ghost use Rattle.cases.specs.declared.reading.TheConstants.{ROOM};

use std::io::Write;
use std::{io, mem};

const ROOM: usize = 256;

// The bytes of a form's record.
const FORM: usize = 57;

#[derive(Clone, Copy, PartialEq, Eq)]
pub enum Place {
    Label,
    Remark,
    // The steps of a case: after a bar, and after a >.
    Forgotten,
    Kept,
}

#[derive(Clone, Copy)]
enum Width {
    One,
    Two,
    Four,
}

impl Width {
    fn bytes(self) -> usize {
        match self {
            Width::One => 1,
            Width::Two => 2,
            Width::Four => 4,
        }
    }
}

// The number that is being read.
#[derive(Clone, Copy)]
struct Number {
    // None before a digit, a point or a colon.
    width: Option<Width>,
    // The sign beside the size: a sign may come before, between or behind the digits.
    is_negative: bool,
    size: u32,
}

impl Number {
    fn begun(width: Option<Width>) -> Number {
        Number {
            width,
            is_negative: false,
            size: 0,
        }
    }

    fn bits(self) -> u32 {
        if self.is_negative {
            return self.size.wrapping_neg();
        }
        self.size
    }
}

#[derive(Clone, Copy)]
pub struct Step {
    pub place: Place,
    pub times: u32,
    // The word and then the record. An array and its count: a star may take the count back, and a later one forward over the same bytes.
    bytes: [u8; ROOM],
    count: usize,
    // Where the record begins, once that is known.
    from: Option<usize>,
    number: Number,
    ghost within: { count ≤ ROOM },
    ghost ordered: { ∥ IfSome from (λ f. f ≤ count) ∥₁ },
}

impl Step {
    // A step at this place, of which nothing is read.
    pub fn begun(place: Place) -> Step {
        Step {
            place,
            times: 1,
            bytes: [0u8; ROOM],
            count: 0,
            from: None,
            number: Number::begun(None),
        }
    }

    // The first letter of the word, 0 if no word was read.
    pub fn letter(&self) -> u8 {
        self.bytes[0]
    }

    pub fn record(&self) -> &[u8] {
        let start = self.from.unwrap_or(0);
        &self.bytes[start..self.count]
    }

    // What exceeds the room is dropped.
    fn push(&mut self, byte: u8) {
        if self.count < ROOM {
            self.bytes[self.count] = byte;
            self.count += 1;
        }
    }

    // Takes up the number that was being read; before the word it says how many times.
    fn end_number(&mut self) {
        let number = mem::replace(&mut self.number, Number::begun(None));
        let Some(width) = number.width else {
            return;
        };
        if self.count == 0 {
            self.times = number.bits();
            return;
        }
        for &byte in number.bits().to_le_bytes().iter().take(width.bytes()) {
            self.push(byte);
        }
    }

    fn take_digit(&mut self, digit: u8) {
        let size = self.number.size;
        self.number.size = size.wrapping_mul(10).wrapping_add(u32::from(digit));
        self.number.width = self.number.width.or(Some(Width::Two));
    }

    // A byte that is no digit and no sign, after the number before it. Here and below the text says what to do by a byte, once each.
    fn take_other(&mut self, byte: u8) {
        match byte {
            b'.' => self.number.width = Some(Width::One),
            b':' => self.number.width = Some(Width::Four),
            b' ' => {
                if 0 < self.count {
                    self.from = self.from.or(Some(self.count));
                }
            }
            b'*' => {
                let from = self.from.unwrap_or(0);
                if from < ROOM - FORM {
                    self.count = from + FORM;
                }
            }
            b';' => *self = Step::begun(self.place),
            _ => self.push(byte),
        }
    }

    // One byte of a step; a blank at its end makes it whole.
    pub fn take(&mut self, byte: u8) {
        match byte {
            b'0'..=b'9' => self.take_digit(byte - b'0'),
            b'-' => self.number.is_negative = true,
            _ => {
                self.end_number();
                self.take_other(byte);
            }
        }
    }

    // One byte more, of which a label is printed.
    pub fn read<W: Write>(&mut self, out: &mut W, byte: u8) -> io::Result<()> {
        match (self.place, byte) {
            (_, b'\n') => *self = Step::begun(Place::Label),
            (Place::Label, b'|') => *self = Step::begun(Place::Forgotten),
            (Place::Label, b'>') => *self = Step::begun(Place::Kept),
            (Place::Label, b'#') => *self = Step::begun(Place::Remark),
            (Place::Label, _) => out.write_all(&[byte])?,
            (Place::Remark, _) => {}
            (Place::Forgotten | Place::Kept, _) => self.take(byte),
        }
        Ok(())
    }
}
