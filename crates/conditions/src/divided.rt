// Conditions on two divides forms of a table.
// `Inside` stays a clause, as in `contents::cells`.
ghost use Rattle.std.specs.Prelude.{◌≡◌};
ghost use Rattle.rows.specs.Limits.{unknowns};
ghost use Rattle.rows.specs.Form.{form_at};
ghost use Rattle.rows.specs.Summable.{Inside};
ghost use Rattle.rows.specs.Conditions.{loosens, scales};

use contents::cells::{divisor, row};

// LF: whether the rows are equal, and the divisor of h divides that of g.
#[tactic(auto, using(crate::proofs::RowTests::comparing), unfolding(rows::specs::Conditions::loosens))]
pub fn loosens(table: &[i32], g: u16, h: u16) -> bool
    requires { Inside unknowns table.now g × Inside unknowns table.now h }
    ensures { result ≡ loosens (form_at unknowns table.now g) (form_at unknowns table.now h) }
{
    if !crate::compare::same_row(table, g, h) {
        return false;
    }
    let large = divisor(table, g);
    let small = divisor(table, h);
    contents::exact::is_multiple(i64::from(large), small)
}

// SU and SD: whether the row and the divisor of h are k times those of g.
#[tactic(auto, using(crate::proofs::RowTests::comparing), unfolding(rows::specs::Conditions::scales))]
pub fn scales(table: &[i32], k: i32, g: u16, h: u16) -> bool
    requires { Inside unknowns table.now g × Inside unknowns table.now h }
    ensures { result ≡ scales k (form_at unknowns table.now g) (form_at unknowns table.now h) }
{
    if !crate::compare::is_scaled(row(table, h), k, row(table, g)) {
        return false;
    }
    let large = divisor(table, h);
    let small = divisor(table, g);
    contents::exact::is_affine(large, 0, k, small)
}
