// What is proposed by a verdict: its refusal, or where it passes a derived line of forms.
ghost use Rattle.std.specs.Prelude.{◌≡◌, List, ◌∷◌, [], ℕ, ℤ, map, length, ◌+◌, ◌*◌, ◌≤◌};
ghost use Rattle.ledger.specs.Limits.{longest_line};
ghost use Rattle.ledger.specs.Literals.{unnegated, negated, line_of};
ghost use Rattle.ledger.specs.Checks.{derived_line};
ghost use Rattle.proposals.specs.Proposing.{scratch_of, ProposesBy, LowTwo, LowThree, LowAll, DifferentAll};

use crate::{NewLine, Proposal, Scratch};
use session::answers::Refusal;

// Form a, negated where the sign is 1, and form b. The sign is a number, since it is added to twice the form.
pub fn two(
    v: Result<(), Refusal>,
    a: u16,
    sign: u16,
    b: u16,
    scratch: &mut Scratch,
) -> Result<Proposal, Refusal>
    requires { LowTwo v a b × (sign ≤ 1) }
    ensures { ProposesBy v (derived_line (line_of ((2 * a + sign) ∷ unnegated b ∷ []))) result scratch.new × (scratch.new.cells ≡ scratch.old.cells) }
{
    v?;
    scratch.first[0] = 2 * a + sign;
    scratch.second[0] = 2 * b;
    Ok(Proposal::Line(NewLine::derived(1, 1)))
}

// Forms a, b and c.
pub fn three(
    v: Result<(), Refusal>,
    a: u16,
    b: u16,
    c: u16,
    scratch: &mut Scratch,
) -> Result<Proposal, Refusal>
    requires { LowThree v a b c }
    ensures { ProposesBy v (derived_line (line_of (unnegated a ∷ unnegated b ∷ unnegated c ∷ []))) result scratch.new × (scratch.new.cells ≡ scratch.old.cells) }
{
    v?;
    scratch.first[0] = 2 * a;
    let x = [2 * b];
    let y = [2 * c];
    let m = literals::join::join_into(&mut scratch.second, &x, &y);
    Ok(Proposal::Line(NewLine::derived(1, m)))
}

// Forms, all negated: a line of the second list alone.
pub fn all_negated(
    v: Result<(), Refusal>,
    picks: &[u16],
    second: &mut [u16],
) -> Result<Proposal, Refusal>
    requires { LowAll v picks.now × (length picks.now ≤ longest_line) × (length second.old ≡ longest_line) }
    ensures { (cells : List ℤ) (xs : List ℕ) → ProposesBy v (derived_line (map negated picks.now)) result (scratch_of cells xs second.new) }
{
    v?;
    literals::write::write_literals(second, picks, 1);
    Ok(Proposal::Line(NewLine::derived(0, picks.len())))
}

// Forms in any order, none negated: a line of the second list alone.
pub fn all_unnegated(
    v: Result<(), Refusal>,
    picks: &[u16],
    second: &mut [u16],
) -> Result<Proposal, Refusal>
    requires { LowAll v picks.now × DifferentAll v picks.now × (length picks.now ≤ longest_line) × (length second.old ≡ longest_line) }
    ensures { (cells : List ℤ) (xs : List ℕ) → ProposesBy v (derived_line (line_of (map unnegated picks.now))) result (scratch_of cells xs second.new) }
{
    v?;
    let count = picks.len();
    literals::write::write_literals(second, picks, 0);
    literals::sort::sort(&mut second[..count]);
    Ok(Proposal::Line(NewLine::derived(0, count)))
}
