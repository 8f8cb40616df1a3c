// What a form and a multiplier may hold.
ghost use Rattle.std.specs.Prelude.{◌≡◌, pos};
ghost use Rattle.ints.specs.Tests.{between, all};
ghost use Rattle.rows.specs.Limits.{unknowns, largest_multiplier};
ghost use Rattle.rows.specs.Form.{form_of, in_range, legal_divisor, legal, legal_multiplier};

// Whether x may be a constant or a coefficient.
pub fn in_range(x: i32) -> bool
    ensures { result ≡ in_range x }
{
    crate::exact::is_between(-rows::LARGEST_NUMBER, rows::LARGEST_NUMBER, x)
}

// Whether every cell may be a constant or a coefficient.
pub fn all_in_range(cells: &[i32]) -> bool
    ensures { result ≡ all in_range cells.now }
{
    cells.iter().all(|&x| in_range(x))
}

// Whether a form of this kind may have this divisor. The kind is the number of a cell, which may be any: an enum would take fewer.
pub fn legal_divisor(kind: i32, divisor: i32) -> bool
    ensures { result ≡ legal_divisor kind divisor }
{
    if kind == rows::IS_DIVIDED {
        return crate::exact::is_between(1, rows::LARGEST_DIVISOR, divisor);
    }
    divisor == 0
}

// Whether the cells are those of a form with legal content.
#[tactic(auto, unfolding(rows::specs::Form::legal))]
pub fn legal(cells: &[i32]) -> bool
    ensures { result ≡ legal unknowns (form_of cells.now) }
{
    if cells.len() != rows::FORM_CELLS {
        return false;
    }
    let kind = cells[0];
    let divisor = cells[1];
    if !crate::exact::is_between(rows::AT_MOST, rows::IS_DIVIDED, kind) {
        return false;
    }
    if !legal_divisor(kind, divisor) {
        return false;
    }
    all_in_range(&cells[2..])
}

// Whether a form of this kind may be added m times. The kind is the number that a cell holds, whichever that is.
#[tactic(auto, unfolding(rows::specs::Form::legal_multiplier))]
pub fn legal_multiplier(kind: i32, m: i32) -> bool
    ensures { result ≡ legal_multiplier kind m }
{
    if kind == rows::AT_MOST {
        return crate::exact::is_between(1, rows::LARGEST_MULTIPLIER, m);
    }
    if m == 0 {
        return false;
    }
    crate::exact::is_between(-rows::LARGEST_MULTIPLIER, rows::LARGEST_MULTIPLIER, m)
}

// Whether a row may be tightened by c.
pub fn legal_factor(c: i32) -> bool
    ensures { result ≡ between (pos 1) (pos largest_multiplier) c }
{
    crate::exact::is_between(1, rows::LARGEST_MULTIPLIER, c)
}
