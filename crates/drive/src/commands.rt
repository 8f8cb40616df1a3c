// The commands, and how they are read. Each begins with a letter, and its numbers are little endian.
ghost use Rattle.std.specs.Prelude.{◌<◌, ◌≤◌, length, IfSome};

use session::state::{Mark, Session};
use trial::BadCommand;

// A call of the library. The bytes of a record or stream come after their length.
#[derive(Clone, Copy)]
pub enum Call<'a> {
    Start,
    Standing,
    Feed(&'a [u8]),
    Run(&'a [u8]),
}

#[derive(Clone, Copy)]
pub enum Command<'a> {
    // Other lengths of the forms, the pool and the lines, over tables that are 0 throughout, and the fresh session.
    Lend(u32, u32, u32),
    // Another session.
    Resume(Session),
    // Another cell, at a place of its table.
    Form(u16, i32),
    Literal(u16, u16),
    Line(u16, u16),
    Call(Call<'a>),
}

// A text that is read from its front. Where it does not hold what is read whole, that is None.
#[derive(Clone, Copy)]
pub struct Reader<'a> {
    pub rest: &'a [u8],
}

impl<'a> Reader<'a> {
    fn byte(&mut self) -> Option<u8>
        ensures { IfSome result (λ _. length self.new.rest.now < length self.old.rest.now) }
    {
        let (&byte, rest) = self.rest.split_first()?;
        self.rest = rest;
        Some(byte)
    }

    fn array<const N: usize>(&mut self) -> Option<[u8; N]>
        ensures { length self.new.rest.now ≤ length self.old.rest.now }
    {
        let (bytes, rest) = self.rest.split_first_chunk()?;
        self.rest = rest;
        Some(*bytes)
    }

    fn u16(&mut self) -> Option<u16>
        ensures { length self.new.rest.now ≤ length self.old.rest.now }
    {
        self.array().map(u16::from_le_bytes)
    }

    fn u32(&mut self) -> Option<u32>
        ensures { length self.new.rest.now ≤ length self.old.rest.now }
    {
        self.array().map(u32::from_le_bytes)
    }

    fn i32(&mut self) -> Option<i32>
        ensures { length self.new.rest.now ≤ length self.old.rest.now }
    {
        self.array().map(i32::from_le_bytes)
    }

    // Bytes after their length.
    fn bytes(&mut self) -> Option<&'a [u8]>
        ensures { length self.new.rest.now ≤ length self.old.rest.now }
    {
        let size = self.u16()?;
        let (bytes, rest) = self.rest.split_at_checked(size as usize)?;
        self.rest = rest;
        Some(bytes)
    }

    fn mark(&mut self) -> Option<Mark>
        ensures { length self.new.rest.now ≤ length self.old.rest.now }
    {
        Some(Mark {
            forms: self.u16()?,
            lines: self.u16()?,
            literals: self.u16()?,
        })
    }

    // The counts, the open levels, and then every mark.
    fn session(&mut self) -> Option<Session>
        ensures { length self.new.rest.now ≤ length self.old.rest.now }
    {
        let mut session = Session::fresh();
        session.forms = self.u16()?;
        session.lines = self.u16()?;
        session.literals = self.u16()?;
        session.open = self.u16()?;
        for mark in &mut session.marks {
            *mark = self.mark()?;
        }
        Some(session)
    }

    // The command at the front: a bad one, if its letter is none of these.
    pub fn command(&mut self) -> Option<Result<Command<'a>, BadCommand>>
        ensures { IfSome result (λ _. length self.new.rest.now < length self.old.rest.now) }
    {
        let command = match self.byte()? {
            b'T' => Command::Lend(self.u32()?, self.u32()?, self.u32()?),
            b'S' => Command::Resume(self.session()?),
            b'F' => Command::Form(self.u16()?, self.i32()?),
            b'P' => Command::Literal(self.u16()?, self.u16()?),
            b'L' => Command::Line(self.u16()?, self.u16()?),
            b'I' => Command::Call(Call::Start),
            b'Q' => Command::Call(Call::Standing),
            b'B' => Command::Call(Call::Feed(self.bytes()?)),
            b'N' => Command::Call(Call::Run(self.bytes()?)),
            _ => return Some(Err(BadCommand)),
        };
        Some(Ok(command))
    }
}
