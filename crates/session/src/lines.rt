// Where lines lie in the pool.
ghost use Rattle.std.specs.Prelude.{◌≡◌};
ghost use Rattle.session.specs.Cells.{end_before};

use crate::state::Session;

// The end of the line before line k, or 0; and 0 where the table is too short to hold it.
pub fn end_before(lines: &[u16], k: usize) -> u16
    ensures { result ≡ end_before lines.now k }
{
    if k == 0 {
        return 0;
    }
    let before = k - 1;
    if lines.len() / Session::LINE_CELLS < before {
        return 0;
    }
    let at = Session::LINE_CELLS * before;
    if lines.len() <= at {
        return 0;
    }
    lines[at]
}
