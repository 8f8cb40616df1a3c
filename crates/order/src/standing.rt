// The standing of a session: refuted by its lowest empty line, or not.
ghost use Rattle.std.specs.Prelude.{◌≡◌, ◌*◌, ◌≤◌, length};
ghost use Rattle.session.specs.Limits.{line_cells};
ghost use Rattle.session.specs.Cells.{tables};
ghost use Rattle.session.specs.Calls.{standing_of, Tells};
ghost use Rattle.order.specs.Empty.{lowest_empty};

use session::answers::Refusal;
use session::state::Session;

// The lowest line that ends where it begins.
fn lowest_empty(lines: &[u16], count: u16) -> Option<u16>
    requires { line_cells * count ≤ length lines.now }
    ensures { standing_of result ≡ lowest_empty lines.now 0 count }
{
    let mut from: u16 = 0;
    // By places: the place is the answer.
    for i in 0..count {
        let end = lines[Session::LINE_CELLS * (i as usize)];
        if end == from {
            return Some(i);
        }
        from = end;
    }
    None
}

// The lowest empty line, which refutes the premises, or none. It writes nothing.
pub fn standing(
    s: Session,
    forms: &[i32],
    pool: &[u16],
    lines: &[u16],
) -> Result<Option<u16>, Refusal>
    ensures { Tells s (tables forms.now pool.now lines.now) result }
{
    crate::entered(s, forms, pool, lines)?;
    Ok(lowest_empty(lines, s.lines))
}
