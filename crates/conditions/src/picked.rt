// Conditions on forms that are picked from a table, any number of them.
ghost use Rattle.std.specs.Prelude.{◌≡◌, map, ◌≤◌, ◌<◌, ◌^◌, length};
ghost use Rattle.ints.specs.Tests.{eq_z, all};
ghost use Rattle.rows.specs.Limits.{unknowns};
ghost use Rattle.rows.specs.Form.{form_at};
ghost use Rattle.rows.specs.Conditions.{neighbours};
ghost use Rattle.rows.specs.Summable.{row_at, Picked};

// `Picked` stays a clause: it speaks of a table and of picks, which no call keeps together.

// Whether every picked form has this divisor.
pub fn divisors_are(table: &[i32], picks: &[u16], divisor: i32) -> bool
    requires { Picked unknowns table.now picks.now }
    ensures { result ≡ all (λ f. eq_z (form_at unknowns table.now f).divisor divisor) picks.now }
{
    picks
        .iter()
        .all(|&f| contents::cells::divisor(table, f) == divisor)
}

// AR: whether the row at place i, counted from 0, is the first row plus i.
pub fn are_neighbours(table: &[i32], picks: &[u16]) -> bool
    requires { Picked unknowns table.now picks.now × (1 ≤ length picks.now) × (length picks.now < 2 ^ 31) }
    ensures { result ≡ neighbours (map (row_at unknowns table.now) picks.now) }
{
    let first = picks[0];
    // By index: the place is what a row is more than the first.
    for i in 1..picks.len() {
        if !crate::compare::matches(table, picks[i], i as i32, 1, first) {
            return false;
        }
    }
    true
}
