// The static library for programs in C and Rust: the four calls of the crate zarnowiej under their exported names, each with the contract of the
// call that it passes on to. They stand twice because a crate is a library or a static library. A slice crosses as an address and a count of cells.
#![tactic(auto)]

ghost use Rattle.session.specs.Cells.{tables};
ghost use Rattle.zarnowiej.specs.Crossing.{StartCrosses, FeedCrosses, RunCrosses, StandingCrosses};

use zarnowiej::{Begun, Fed, Ran, Session, Stands};

// The start: a fresh session, and every named cell becomes 0. Refused with 1 where a table is too short.
#[unsafe(no_mangle)]
pub extern "C" fn zarnowiej_start(forms: &mut [i32], pool: &mut [u16], lines: &mut [u16]) -> Begun
    ensures { StartCrosses (tables forms.old pool.old lines.old) result (tables forms.new pool.new lines.new) }
{
    zarnowiej::zarnowiej_start(forms, pool, lines)
}

// One record: refused, or what it made and the session afterwards.
#[unsafe(no_mangle)]
pub extern "C" fn zarnowiej_feed(
    s: Session,
    forms: &mut [i32],
    pool: &mut [u16],
    lines: &mut [u16],
    bytes: &[u8],
) -> Fed
    ensures { FeedCrosses s (tables forms.old pool.old lines.old) bytes.now result (tables forms.new pool.new lines.new) }
{
    zarnowiej::zarnowiej_feed(s, forms, pool, lines, bytes)
}

// A stream of records, up to its end or to the first that is refused: the accepted totals, what stopped it and the session afterwards.
#[unsafe(no_mangle)]
pub extern "C" fn zarnowiej_run(
    s: Session,
    forms: &mut [i32],
    pool: &mut [u16],
    lines: &mut [u16],
    stream: &[u8],
) -> Ran
    ensures { RunCrosses s (tables forms.old pool.old lines.old) stream.now result (tables forms.new pool.new lines.new) }
{
    zarnowiej::zarnowiej_run(s, forms, pool, lines, stream)
}

// The standing: refuted by the lowest empty line, not refuted, or refused with 1 or 2. It writes nothing.
#[unsafe(no_mangle)]
pub extern "C" fn zarnowiej_standing(
    s: Session,
    forms: &[i32],
    pool: &[u16],
    lines: &[u16],
) -> Stands
    ensures { StandingCrosses s (tables forms.now pool.now lines.now) result }
{
    zarnowiej::zarnowiej_standing(s, forms, pool, lines)
}
