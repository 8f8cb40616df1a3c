// Feed with the session lent to it and altered there, over the call that takes the session by value; and a call from a value, which lends it.
#![tactic(auto)]

ghost use Rattle.session.specs.Cells.{tables};
ghost use Rattle.checker.specs.Feed.{Feeds};

use checker::keep::Fed;
use session::answers::{Made, Refusal};
use session::state::Session;

// One record, of any bytes, on any session and any tables.
pub fn feed_lent(
    session: &mut Session,
    forms: &mut [i32],
    pool: &mut [u16],
    lines: &mut [u16],
    bytes: &[u8],
) -> Result<Made, Refusal>
    ensures { Feeds session.old (tables forms.old pool.old lines.old) bytes.now (record { session = session.new; answer = result }) (tables forms.new pool.new lines.new) }
{
    let before = *session;
    let fed = checker::feed::feed(before, forms, pool, lines, bytes);
    let after = fed.session;
    *session = after;
    fed.answer
}

// The same from a session by value, which is lent and comes back: whoever calls this has no reference to a session.
pub fn feed_by_lending(
    s: Session,
    forms: &mut [i32],
    pool: &mut [u16],
    lines: &mut [u16],
    bytes: &[u8],
) -> Fed
    ensures { Feeds s (tables forms.old pool.old lines.old) bytes.now result (tables forms.new pool.new lines.new) }
{
    let mut session = s;
    let answer = feed_lent(&mut session, forms, pool, lines, bytes);
    Fed { session, answer }
}
