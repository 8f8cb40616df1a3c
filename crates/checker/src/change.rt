// What a record that bears a mark changes, for every call that takes records.
ghost use Rattle.rows.specs.Limits.{unknowns};
ghost use Rattle.session.specs.Cells.{tables};
ghost use Rattle.records.specs.Marks.{record_mark_of, OfMark};
ghost use Rattle.settle.specs.Settling.{Seen};
ghost use Rattle.checker.specs.Changes.{Changes};

use proposals::Scratch;
use records::marks::RecordMark;
use rules::held::{Forms, Lines};
use session::answers::Refusal;
use settle::{Change, Top};

// On tables that are cut to their named cells and in order: what the bytes propose, settled, over a scratch that is lent for it. `Seen` and `OfMark`
// stay clauses, as in `settle` and `propose`.
pub fn change_over(
    top: Top,
    forms: &mut [i32],
    pool: &mut [u16],
    lines: &mut [u16],
    bytes: &[u8],
    m: RecordMark,
    scratch: &mut Scratch,
) -> Result<Change, Refusal>
    requires { Seen unknowns top (tables forms.old pool.old lines.old) × OfMark bytes.now (record_mark_of m) }
    ensures { Changes unknowns top (tables forms.old pool.old lines.old) bytes.now result (tables forms.new pool.new lines.new) }
{
    let counts = top.counts;
    let in_force = Forms {
        count: counts.forms,
        cells: forms,
    };
    let before = Lines {
        count: counts.lines,
        pool,
        lines,
    };
    let p = propose::propose(in_force, before, bytes, m, scratch);
    settle::settle(
        top,
        forms,
        pool,
        lines,
        p,
        &scratch.cells,
        &scratch.first,
        &scratch.second,
    )
}

// The same over a scratch of its own: whoever has one record lends none.
pub fn change_of(
    top: Top,
    forms: &mut [i32],
    pool: &mut [u16],
    lines: &mut [u16],
    bytes: &[u8],
    m: RecordMark,
) -> Result<Change, Refusal>
    requires { Seen unknowns top (tables forms.old pool.old lines.old) × OfMark bytes.now (record_mark_of m) }
    ensures { Changes unknowns top (tables forms.old pool.old lines.old) bytes.now result (tables forms.new pool.new lines.new) }
{
    let mut scratch = Scratch::new();
    change_over(top, forms, pool, lines, bytes, m, &mut scratch)
}
