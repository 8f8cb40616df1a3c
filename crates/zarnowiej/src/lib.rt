// The four calls for programs in C and Rust, which the crate zarnowiej_c exports. Sessions and answers are the plain structs of plain.rt, which
// say what their numbers mean. Each call has the contract of the call that it stands for, through the translation of specs/Crossing.antt, and
// asks nothing of its caller: any lengths, any cells, any session and any bytes are answered.
#![tactic(auto)]

mod plain;

ghost use Rattle.session.specs.Cells.{tables};
ghost use Rattle.zarnowiej.specs.Crossing.{StartCrosses, FeedCrosses, RunCrosses, StandingCrosses};

pub use plain::{Begun, Fed, Mark, Ran, Session, Stands};
use session::state;

// The start: a fresh session, and every named cell becomes 0. Refused with 1 where a table is too short.
pub fn zarnowiej_start(forms: &mut [i32], pool: &mut [u16], lines: &mut [u16]) -> Begun
    ensures { StartCrosses (tables forms.old pool.old lines.old) result (tables forms.new pool.new lines.new) }
{
    let begun = session::start::start(forms, pool, lines);
    Begun::from(begun)
}

// One record: refused, or what it made and the session afterwards.
pub fn zarnowiej_feed(
    s: Session,
    forms: &mut [i32],
    pool: &mut [u16],
    lines: &mut [u16],
    bytes: &[u8],
) -> Fed
    ensures { FeedCrosses s (tables forms.old pool.old lines.old) bytes.now result (tables forms.new pool.new lines.new) }
{
    let inner = state::Session::from(s);
    let fed = checker::feed::feed(inner, forms, pool, lines, bytes);
    Fed::from(fed)
}

// A stream of records, up to its end or to the first that is refused: the accepted totals, what stopped it and the session afterwards.
pub fn zarnowiej_run(
    s: Session,
    forms: &mut [i32],
    pool: &mut [u16],
    lines: &mut [u16],
    stream: &[u8],
) -> Ran
    ensures { RunCrosses s (tables forms.old pool.old lines.old) stream.now result (tables forms.new pool.new lines.new) }
{
    let inner = state::Session::from(s);
    let ran = stream::run(inner, forms, pool, lines, stream);
    Ran::from(ran)
}

// The standing: refuted by the lowest empty line, not refuted, or refused with 1 or 2. It writes nothing.
pub fn zarnowiej_standing(s: Session, forms: &[i32], pool: &[u16], lines: &[u16]) -> Stands
    ensures { StandingCrosses s (tables forms.now pool.now lines.now) result }
{
    let inner = state::Session::from(s);
    let standing = order::standing::standing(inner, forms, pool, lines);
    Stands::from(standing)
}
