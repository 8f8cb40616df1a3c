// The marks of records, and in one table how a record of each looks in bytes.
ghost use Rattle.std.specs.Prelude.{◌≡◌, ◌<◌, ◌≤◌, length, map};
ghost use Rattle.ledger.specs.Record.{rule_layout, layout};
ghost use Rattle.ledger.specs.Bytes.{has_letters, first_of, mark_of};
ghost use Rattle.records.specs.Marks.{rule_mark_of, record_mark_of, bearing_of, layout_of};

use session::state::Session;

// The marks of the rules.
#[derive(Clone, Copy, PartialEq, Eq)]
pub enum RuleMark {
    Fm,
    Pm,
    Rs,
    Fk,
    To,
    Tr,
    Eq,
    Ti,
    Wk,
    Cl,
    Ar,
    Lf,
    Su,
    Sd,
}

#[derive(Clone, Copy, PartialEq, Eq)]
pub enum RecordMark {
    Rule(RuleMark),
    Op,
    Wd,
}

// The place right behind the two letters.
pub const BEHIND_LETTERS: usize = 2;

// A count: its place, its range, and how many bytes more for each that is counted.
#[derive(Clone, Copy, PartialEq, Eq)]
pub struct Counting {
    pub place: usize,
    pub least: u8,
    pub most: usize,
    pub each: usize,
}

// Two letters; the bytes, all of them at count 0; and the count, or none.
#[derive(Clone, Copy, PartialEq, Eq)]
pub struct Layout {
    pub first: u8,
    pub second: u8,
    pub bytes: usize,
    pub counting: Option<Counting>,
}

fn fixed(first: u8, second: u8, bytes: usize) -> Layout
    ensures { layout_of result ≡ Rattle.ledger.specs.Record.fixed first second bytes }
{
    Layout {
        first,
        second,
        bytes,
        counting: None,
    }
}

fn counted(first: u8, second: u8, place: usize, least: u8, most: usize, each: usize) -> Layout
    requires { place < 256 }
    ensures { layout_of result ≡ Rattle.ledger.specs.Record.counting first second place least most each }
{
    Layout {
        first,
        second,
        bytes: place + 1,
        counting: Some(Counting {
            place,
            least,
            most,
            each,
        }),
    }
}

// The table.
pub fn rule_layout(m: RuleMark) -> Layout
    ensures { layout_of result ≡ rule_layout (rule_mark_of m) }
{
    match m {
        RuleMark::Fm => fixed(b'F', b'M', 57),
        RuleMark::Pm => counted(b'P', b'M', BEHIND_LETTERS, 0, Session::LONGEST_LINE, 2),
        RuleMark::Rs => fixed(b'R', b'S', 8),
        RuleMark::Fk => counted(b'F', b'K', BEHIND_LETTERS, 1, Session::MOST_TERMS, 6),
        RuleMark::To => fixed(b'T', b'O', 6),
        RuleMark::Tr => fixed(b'T', b'R', 8),
        RuleMark::Eq => fixed(b'E', b'Q', 6),
        RuleMark::Ti => fixed(b'T', b'I', 10),
        RuleMark::Wk => fixed(b'W', b'K', 6),
        RuleMark::Cl => counted(b'C', b'L', BEHIND_LETTERS, 1, Session::MOST_TERMS, 6),
        RuleMark::Ar => counted(b'A', b'R', BEHIND_LETTERS, 1, Session::LONGEST_LINE, 2),
        RuleMark::Lf => fixed(b'L', b'F', 6),
        RuleMark::Su => fixed(b'S', b'U', 8),
        RuleMark::Sd => fixed(b'S', b'D', 8),
    }
}

pub fn layout_of(m: RecordMark) -> Layout
    ensures { layout_of result ≡ layout (record_mark_of m) }
{
    match m {
        RecordMark::Rule(r) => rule_layout(r),
        RecordMark::Op => fixed(b'O', b'P', 2),
        RecordMark::Wd => fixed(b'W', b'D', 2),
    }
}

// Whether the bytes begin with the mark's letters.
fn has_letters(bytes: &[u8], m: RecordMark) -> bool
    requires { 2 ≤ length bytes.now }
    ensures { result ≡ has_letters bytes.now (record_mark_of m) }
{
    let l = layout_of(m);
    bytes[0] == l.first && bytes[1] == l.second
}

// The first of the marks that the bytes begin with. Always inlined: only so are the marks constants that the bytes are compared with.
#[inline(always)]
fn mark_among(bytes: &[u8], marks: &[RecordMark]) -> Option<RecordMark>
    requires { 2 ≤ length bytes.now }
    ensures { bearing_of result ≡ first_of bytes.now (map record_mark_of marks.now) }
{
    marks.iter().copied().find(|&m| has_letters(bytes, m))
}

// The table in two halves: of a walk through all of it the compiler makes one comparison after the other; of these, a choice by the first letter.
const FIRST_HALF: [RecordMark; 8] = [
    RecordMark::Rule(RuleMark::Fm),
    RecordMark::Rule(RuleMark::Pm),
    RecordMark::Rule(RuleMark::Rs),
    RecordMark::Rule(RuleMark::Fk),
    RecordMark::Rule(RuleMark::To),
    RecordMark::Rule(RuleMark::Tr),
    RecordMark::Rule(RuleMark::Eq),
    RecordMark::Rule(RuleMark::Ti),
];

const SECOND_HALF: [RecordMark; 8] = [
    RecordMark::Rule(RuleMark::Wk),
    RecordMark::Rule(RuleMark::Cl),
    RecordMark::Rule(RuleMark::Ar),
    RecordMark::Rule(RuleMark::Lf),
    RecordMark::Rule(RuleMark::Su),
    RecordMark::Rule(RuleMark::Sd),
    RecordMark::Op,
    RecordMark::Wd,
];

// The mark that the bytes begin with.
pub fn mark_of(bytes: &[u8]) -> Option<RecordMark>
    requires { 2 ≤ length bytes.now }
    ensures { bearing_of result ≡ mark_of bytes.now }
{
    mark_among(bytes, &FIRST_HALF).or_else(|| mark_among(bytes, &SECOND_HALF))
}
