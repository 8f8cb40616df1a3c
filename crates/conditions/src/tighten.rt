// TI: whether one row is another, divided and rounded up.
// `Inside` stays a clause, as in `contents::cells`.
ghost use Rattle.std.specs.Prelude.{◌≡◌, ◌&&◌, pos, ◌-ℤ◌, ◌*ℤ◌, ◌<◌, length};
ghost use Rattle.std.specs.Int.Signed.{lt_z, le_z};
ghost use Rattle.rows.specs.Limits.{unknowns};
ghost use Rattle.rows.specs.Summable.{row_at, Inside};
ghost use Rattle.rows.specs.Conditions.{tightens};

use crate::compare::is_scaled;
use contents::cells::row;

// Whether c * (b - 1) < a <= c * b.
fn rounds_up(a: i32, c: i32, b: i32) -> bool
    ensures { result ≡ lt_z (c *ℤ (b -ℤ pos 1)) a && le_z a (c *ℤ b) }
{
    let p = contents::exact::plus_times(0, c, b);
    let x = i64::from(a);
    p - i64::from(c) < x && x <= p
}

// Whether the row y is the row x tightened by c.
#[tactic(auto, using(crate::proofs::RowTests::comparing), unfolding(rows::specs::Conditions::tightens))]
fn is_tightened(x: &[i32], y: &[i32], c: i32) -> bool
    requires { (0 < length x.now) × (0 < length y.now) }
    ensures { result ≡ tightens c x.now y.now }
{
    is_scaled(&x[1..], c, &y[1..]) && rounds_up(x[0], c, y[0])
}

// Whether the row of form b is that of form a tightened by c.
pub fn tightens(table: &[i32], a: u16, b: u16, c: i32) -> bool
    requires { Inside unknowns table.now a × Inside unknowns table.now b }
    ensures { result ≡ tightens c (row_at unknowns table.now a) (row_at unknowns table.now b) }
{
    is_tightened(row(table, a), row(table, b), c)
}
