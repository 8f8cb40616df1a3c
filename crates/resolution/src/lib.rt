// RS: what each parent leaves without its literal of the pivot is gathered out of the pool; both, joined, are the line.
#![tactic(auto)]

ghost use Rattle.std.specs.Prelude.{◌≡◌, ◌≤◌, ◌<◌};
ghost use Rattle.ledger.specs.Limits.{most_forms};
ghost use Rattle.session.specs.Cells.{literals_at};
ghost use Rattle.rules.specs.Read.{Resolves};

use proposals::{NewLine, Proposal, Scratch};
use rules::held::Lines;
use session::answers::Refusal;
use session::state::Session;

// The literals of line i.
fn literals_of<'a>(lines: Lines<'a>, i: u16) -> &'a [u16]
    requires { i < lines.count }
    ensures { result.now ≡ literals_at lines.entry.pool.now lines.entry.lines.now i }
{
    let k = i as usize;
    let from = session::lines::end_before(lines.lines, k) as usize;
    let end = session::lines::end_before(lines.lines, k + 1) as usize;
    &lines.pool[from..end]
}

pub fn resolve(
    forms: u16,
    lines: Lines,
    pivot: u16,
    i: u16,
    j: u16,
    scratch: &mut Scratch,
) -> Result<Proposal, Refusal>
    requires { forms ≤ most_forms }
    ensures { Resolves forms lines.entry pivot i j result scratch.new × (scratch.new.cells ≡ scratch.old.cells) }
{
    if forms <= pivot || lines.count <= i || lines.count <= j {
        return Err(Refusal::NotInForce);
    }
    let a = literals_of(lines, i);
    let b = literals_of(lines, j);
    let n = literals::gather::gather(&mut scratch.first, a, 2 * pivot);
    if n == a.len() {
        return Err(Refusal::ConditionFails);
    }
    let m = literals::gather::gather(&mut scratch.second, b, 2 * pivot + 1);
    if m == b.len() {
        return Err(Refusal::ConditionFails);
    }
    if literals::join::longer_than(
        &scratch.first[..n],
        &scratch.second[..m],
        Session::LONGEST_LINE,
    ) {
        return Err(Refusal::LineTooLong);
    }
    Ok(Proposal::Line(NewLine::derived(n, m)))
}
