// Forms and lines in force, as the rules read them: the first so many of a table that is in order.
ghost use Rattle.rows.specs.Limits.{unknowns};
ghost use Rattle.rules.specs.Held.{FormsHeld, LinesHeld};

// So many forms, each of legal content.
#[derive(Clone, Copy)]
pub struct Forms<'a> {
    pub count: u16,
    pub cells: &'a [i32],
    ghost held: { FormsHeld unknowns count cells.now },
}

// So many lines, each of literals in the pool and none longer than a line may be.
#[derive(Clone, Copy)]
pub struct Lines<'a> {
    pub count: u16,
    pub pool: &'a [u16],
    pub lines: &'a [u16],
    ghost held: { LinesHeld count pool.now lines.now },
}
