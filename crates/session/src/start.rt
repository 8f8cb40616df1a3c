// The start: every named cell becomes 0.
ghost use Rattle.std.specs.Prelude.{◌≡◌};
ghost use Rattle.rows.specs.Limits.{unknowns};
ghost use Rattle.session.specs.Cells.{tables};
ghost use Rattle.session.specs.Calls.{Starts};
ghost use Rattle.session.specs.InOrder.{sizes};
ghost use Rattle.session.specs.Answers.{finding_of};
ghost use Rattle.ledger.specs.Apply.{finding};

use crate::answers::Refusal;
use crate::state::Session;

// The fresh session, and whether the tables are 0 throughout or the start was refused.
#[derive(Clone, Copy)]
pub struct Begun {
    pub session: Session,
    pub start: Result<(), Refusal>,
}

// Whether the tables have their named cells.
pub fn sized(forms: &[i32], pool: &[u16], lines: &[u16]) -> Result<(), Refusal>
    ensures { finding_of result ≡ finding (sizes unknowns (tables forms.now pool.now lines.now)) }
{
    if forms.len() < Session::FORM_TABLE {
        return Err(Refusal::ShortTable);
    }
    if pool.len() < Session::POOL {
        return Err(Refusal::ShortTable);
    }
    if lines.len() < Session::LINE_TABLE {
        return Err(Refusal::ShortTable);
    }
    Ok(())
}

// A fresh session over tables that are 0 throughout; of short tables nothing is written. The three tables stay three parameters, here and in every
// call, as C lends them: a struct of three `&mut` would owe in each contract that each is still the reference that it was.
pub fn start(forms: &mut [i32], pool: &mut [u16], lines: &mut [u16]) -> Begun
    ensures { Starts (tables forms.old pool.old lines.old) result (tables forms.new pool.new lines.new) }
{
    let session = Session::fresh();
    if let Err(why) = sized(forms, pool, lines) {
        let start = Err(why);
        return Begun { session, start };
    }
    crate::clear::clear(&mut forms[0..Session::FORM_TABLE], 0);
    crate::clear::clear_at_once(&mut pool[0..Session::POOL], 0);
    crate::clear::clear_at_once(&mut lines[0..Session::LINE_TABLE], 0);
    let start = Ok(());
    Begun { session, start }
}
