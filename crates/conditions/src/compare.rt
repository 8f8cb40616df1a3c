// Comparisons of two rows. Every one of them asks whether a row is n + m times another, for some n and m.
// `Inside` stays a clause, as in `contents::cells`.
ghost use Rattle.std.specs.Prelude.{◌≡◌, ◌<◌, length};
ghost use Rattle.ints.specs.Tests.{eq_zs};
ghost use Rattle.rows.specs.Limits.{unknowns};
ghost use Rattle.rows.specs.Row.{scaled, shifted};
ghost use Rattle.rows.specs.Summable.{row_at, Inside};
ghost use Rattle.rows.specs.Conditions.{same_row, is_one_minus, is_one_more, is_either};

use contents::cells::row;

// Whether each cell of a is m times that of b.
pub fn is_scaled(a: &[i32], m: i32, b: &[i32]) -> bool
    ensures { result ≡ eq_zs a.now (scaled m b.now) }
{
    a.len() == b.len()
        && a.iter()
            .zip(b)
            .all(|(&x, &y)| contents::exact::is_affine(x, 0, m, y))
}

// Whether the row a is n + m times the row b.
#[tactic(auto, using(crate::proofs::RowTests::comparing))]
fn is_image(a: &[i32], n: i32, m: i32, b: &[i32]) -> bool
    requires { 0 < length b.now }
    ensures { result ≡ eq_zs a.now (shifted n (scaled m b.now)) }
{
    let Some((&x, rest)) = a.split_first() else {
        return false;
    };
    contents::exact::is_affine(x, n, m, b[0]) && is_scaled(rest, m, &b[1..])
}

// Whether the row of form a is n + m times the row of form b.
pub fn matches(table: &[i32], a: u16, n: i32, m: i32, b: u16) -> bool
    requires { Inside unknowns table.now a × Inside unknowns table.now b }
    ensures { result ≡ same_row (row_at unknowns table.now a) (shifted n (scaled m (row_at unknowns table.now b))) }
{
    is_image(row(table, a), n, m, row(table, b))
}

// WK: whether the rows are equal.
pub fn same_row(table: &[i32], a: u16, b: u16) -> bool
    requires { Inside unknowns table.now a × Inside unknowns table.now b }
    ensures { result ≡ same_row (row_at unknowns table.now a) (row_at unknowns table.now b) }
{
    matches(table, a, 0, 1, b)
}

// TO, and v of TR: whether b = 1 - a.
pub fn is_one_minus(table: &[i32], b: u16, a: u16) -> bool
    requires { Inside unknowns table.now b × Inside unknowns table.now a }
    ensures { result ≡ is_one_minus (row_at unknowns table.now b) (row_at unknowns table.now a) }
{
    matches(table, b, 1, -1, a)
}

// u of TR: whether u = t + 1.
#[tactic(auto, using(crate::proofs::RowTests::comparing))]
pub fn is_one_more(table: &[i32], u: u16, t: u16) -> bool
    requires { Inside unknowns table.now u × Inside unknowns table.now t }
    ensures { result ≡ is_one_more (row_at unknowns table.now u) (row_at unknowns table.now t) }
{
    matches(table, u, 1, 1, t)
}

// EQ: whether a = t or a = -t.
pub fn is_either(table: &[i32], a: u16, t: u16) -> bool
    requires { Inside unknowns table.now a × Inside unknowns table.now t }
    ensures { result ≡ is_either (row_at unknowns table.now a) (row_at unknowns table.now t) }
{
    same_row(table, a, t) || matches(table, a, 0, -1, t)
}
