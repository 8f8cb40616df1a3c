// The library's calls on a trial, with as many cells as are lent.
ghost use Rattle.trial.specs.Lending.{LendsTheSame};

use crate::Trial;
use session::answers::{Made, Refusal};
use stream::Ran;

impl Trial {
    // The cells of each table that a call is lent.
    fn lent(&self) -> (&[i32], &[u16], &[u16]) {
        (self.forms.lent(), self.pool.lent(), self.lines.lent())
    }

    pub fn start(&mut self) -> Result<(), Refusal>
        ensures { LendsTheSame self.old self.new }
    {
        let forms = self.forms.lent_mut();
        let pool = self.pool.lent_mut();
        let lines = self.lines.lent_mut();
        let begun = session::start::start(forms, pool, lines);
        self.session = begun.session;
        begun.start
    }

    // The order test.
    pub fn entered(&self) -> Result<(), Refusal> {
        let (forms, pool, lines) = self.lent();
        order::entered(self.session, forms, pool, lines)
    }

    pub fn standing(&self) -> Result<Option<u16>, Refusal> {
        let (forms, pool, lines) = self.lent();
        order::standing::standing(self.session, forms, pool, lines)
    }

    pub fn feed(&mut self, record: &[u8]) -> Result<Made, Refusal>
        ensures { LendsTheSame self.old self.new }
    {
        let before = self.session;
        let forms = self.forms.lent_mut();
        let pool = self.pool.lent_mut();
        let lines = self.lines.lent_mut();
        let fed = checker::feed::feed(before, forms, pool, lines, record);
        self.session = fed.session;
        fed.answer
    }

    // A feed with the session lent, beside the feed above: they differ in the call that is tried.
    pub fn feed_lent(&mut self, record: &[u8]) -> Result<Made, Refusal>
        ensures { LendsTheSame self.old self.new }
    {
        let before = self.session;
        let forms = self.forms.lent_mut();
        let pool = self.pool.lent_mut();
        let lines = self.lines.lent_mut();
        let fed = lent::feed_by_lending(before, forms, pool, lines, record);
        self.session = fed.session;
        fed.answer
    }

    pub fn run(&mut self, bytes: &[u8]) -> Ran
        ensures { LendsTheSame self.old self.new }
    {
        let before = self.session;
        let forms = self.forms.lent_mut();
        let pool = self.pool.lent_mut();
        let lines = self.lines.lent_mut();
        let ran = stream::run(before, forms, pool, lines, bytes);
        self.session = ran.session;
        ran
    }
}

#[cfg(test)]
mod tests {
    use super::*;
    use crate::{FORM_ROOM, LINE_ROOM, POOL_ROOM};
    use session::state::Session;

    #[test]
    fn a_call_is_lent_as_much_after_it(rt: HostRuntime) {
        let mut trial = Trial::filled(7, Session::FORM_TABLE, POOL_ROOM + 1, LINE_ROOM);
        assert!(rt; trial.start() == Ok(()));
        assert!(rt; trial.feed(b"OP") == Ok(Made::Level(1)));
        assert!(rt; trial.feed_lent(b"OP") == Ok(Made::Level(2)));
        assert!(rt; trial.run(b"WDWD").stop == Ok(()));
        assert!(rt; trial.feed(b"WD") == Err(Refusal::NoLevelOpen));
        assert_eq!(rt; trial.forms.lent, Session::FORM_TABLE);
        assert_eq!(rt; trial.pool.lent, POOL_ROOM);
        assert_eq!(rt; trial.lines.lent, LINE_ROOM);
        trial.forms.lent = FORM_ROOM + 1;
        trial.lines.lent = 0;
        assert!(rt; trial.start() == Err(Refusal::ShortTable));
        assert_eq!(rt; trial.forms.lent, FORM_ROOM + 1);
        assert_eq!(rt; trial.lines.lent, 0);
    }
}
