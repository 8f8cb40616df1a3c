// One way through the lines between two marks and the literals of each, left at the first cell that breaks the order.
#![tactic(auto)]

ghost use Rattle.walk.specs.Walk.{Exactly, LinesGood, Stretch};

use session::state::{Mark, Session};

// Whether the lines between two marks are right. The first cell that breaks the order ends both loops.
pub fn lines_hold(pool: &[u16], lines: &[u16], low: Mark, m: Mark) -> bool
    requires { Stretch pool.now lines.now low m }
    ensures { Exactly result (LinesGood pool.now lines.now low m) }
{
    let bound = 2 * m.forms;
    let stop = m.literals as usize;
    let mut ok = true;
    let mut from = low.literals as usize;
    // By places: what holds is said of the line at a place.
    'lines: for k in low.lines as usize..m.lines as usize {
        let end = lines[Session::LINE_CELLS * k] as usize;
        let origin = lines[Session::LINE_CELLS * k + 1];
        if end < from || from + Session::LONGEST_LINE < end || stop < end {
            ok = false;
            break 'lines;
        }
        if origin < Session::PREMISE || Session::DERIVED < origin {
            ok = false;
            break 'lines;
        }
        let mut least: u16 = 0;
        for &x in &pool[from..end] {
            if x < least || bound <= x {
                ok = false;
                break 'lines;
            }
            least = x + 1;
        }
        from = end;
    }
    ok
}
