// What a call gives back.
ghost use Rattle.std.specs.Prelude.{◌≡◌};
ghost use Rattle.session.specs.Answers.{number_of};
ghost use Rattle.session.specs.Cells.{Tables};
ghost use Rattle.laid.specs.Result.{unchanged};
ghost use Rattle.checker.specs.Feed.{result_of};

use session::answers::{Made, Refusal};
use session::state::Session;

// The session afterwards, and the answer.
#[derive(Clone, Copy)]
pub struct Fed {
    pub session: Session,
    pub answer: Result<Made, Refusal>,
}

pub fn refuse(s: Session, why: Refusal) -> Fed
    ensures { (t : Tables) → result_of result t ≡ unchanged (number_of why) s t }
{
    Fed {
        session: s,
        answer: Err(why),
    }
}
