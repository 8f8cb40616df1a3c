// The clauses of the order on marks, level by level; between two of them the lines are walked through.
ghost use Rattle.std.specs.Prelude.{◌≡◌, ◌≤◌, drop};
ghost use Rattle.ints.specs.Tests.{all};
ghost use Rattle.ledger.specs.Limits.{most_levels};
ghost use Rattle.session.specs.Parts.{edge};
ghost use Rattle.session.specs.InOrder.{not_above, is_no_mark};
ghost use Rattle.walk.specs.Walk.{Exactly};
ghost use Rattle.order.specs.Levels.{Below, LevelGood, LevelsGood, Passable};

use session::state::{Mark, Session};

// Whether no count of a is above b's. By hand: a derived order asks of the lines only where the forms are equal.
#[tactic(auto, unfolding(session::specs::InOrder::not_above))]
fn not_above(a: Mark, b: Mark) -> bool
    ensures { result ≡ not_above a b }
{
    a.forms <= b.forms && a.lines <= b.lines && a.literals <= b.literals
}

// Whether a mark is right after the one below it: it neither falls nor exceeds the counts, it ends where its lines end,
// and its lines name only its forms.
#[tactic(auto, unfolding(session::specs::InOrder::not_above))]
fn level_holds(pool: &[u16], lines: &[u16], here: Mark, low: Mark, m: Mark) -> bool
    requires { Below pool.now lines.now here low }
    ensures { Exactly result (LevelGood pool.now lines.now here low m) }
{
    if !not_above(low, m) {
        return false;
    }
    if !not_above(m, here) {
        return false;
    }
    if session::lines::end_before(lines, m.lines as usize) != m.literals {
        return false;
    }
    walk::lines_hold(pool, lines, low, m)
}

// The mark of level i, or the present counts above the open levels.
fn edge_at(s: Session, i: usize) -> Mark
    requires { s.«open» ≤ most_levels }
    ensures { result ≡ edge s i }
{
    if i < s.open as usize {
        return s.marks[i];
    }
    s.counts()
}

// Whether the levels are right, from the first mark up to the present counts: each line is met once.
pub fn levels_hold(s: Session, pool: &[u16], lines: &[u16]) -> bool
    requires { Passable pool.now lines.now s }
    ensures { Exactly result (LevelsGood pool.now lines.now s) }
{
    let here = s.counts();
    let open = s.open as usize;
    let mut low = Mark::default();
    // By places: above the last mark stand the present counts.
    for i in 0..open + 1 {
        let m = edge_at(s, i);
        if !level_holds(pool, lines, here, low, m) {
            return false;
        }
        low = m;
    }
    true
}

// Whether the marks above the open levels are 0.
pub fn marks_clear(s: Session) -> bool
    requires { s.«open» ≤ most_levels }
    ensures { result ≡ all is_no_mark (drop s.«open» s.marks) }
{
    s.marks
        .iter()
        .skip(s.open as usize)
        .all(|&m| m == Mark::default())
}
