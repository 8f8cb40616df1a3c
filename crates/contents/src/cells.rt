// Where forms lie in a table: each is a kind, a divisor and a row, in this order.
ghost use Rattle.std.specs.Prelude.{◌≡◌, ◌+◌, ◌*◌, leb, length};
ghost use Rattle.rows.specs.Limits.{unknowns};
ghost use Rattle.rows.specs.Form.{form_at};
ghost use Rattle.rows.specs.Summable.{row_at, Inside};

// A table and the number of a form, as records name it: a struct of both would be made anew at each call, with the clause `Inside` to show there.

// Whether the table has form f.
pub fn has_form(table: &[i32], f: u16) -> bool
    ensures { result ≡ leb ((unknowns + 3) * f + (unknowns + 3)) (length table.now) }
{
    rows::FORM_CELLS * usize::from(f) + rows::FORM_CELLS <= table.len()
}

// The kind of form f.
pub fn kind(table: &[i32], f: u16) -> i32
    requires { Inside unknowns table.now f }
    ensures { result ≡ (form_at unknowns table.now f).kind }
{
    let at = rows::FORM_CELLS * usize::from(f);
    table[at]
}

// The divisor of form f. It and the kind are two functions, as they are two cells: one would take the cell's place as a number.
pub fn divisor(table: &[i32], f: u16) -> i32
    requires { Inside unknowns table.now f }
    ensures { result ≡ (form_at unknowns table.now f).divisor }
{
    let at = rows::FORM_CELLS * usize::from(f) + 1;
    table[at]
}

// The row of form f.
pub fn row(table: &[i32], f: u16) -> &[i32]
    requires { Inside unknowns table.now f }
    ensures { result.now ≡ row_at unknowns table.now f }
{
    let at = rows::FORM_CELLS * usize::from(f) + 2;
    let end = at + rows::ROW_CELLS;
    &table[at..end]
}
