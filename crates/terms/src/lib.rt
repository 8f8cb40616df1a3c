// The rules on sums: FK and CL. Both read their terms, test forms, kinds and multipliers, and then what the sum reaches.
#![tactic(auto)]

ghost use Rattle.std.specs.Prelude.{◌≡◌};
ghost use Rattle.ints.specs.Tests.{all};
ghost use Rattle.rows.specs.Limits.{unknowns, most_terms};
ghost use Rattle.rows.specs.Form.{form_at};
ghost use Rattle.rows.specs.Summable.{Inside, Picked, terms};
ghost use Rattle.ledger.specs.Record.{FK, CL, behind_letters};
ghost use Rattle.ledger.specs.Apply.{finding};
ghost use Rattle.ledger.specs.Bytes.{terms_behind};
ghost use Rattle.session.specs.Answers.{finding_of};
ghost use Rattle.fields.specs.Fields.{Listed};
ghost use Rattle.rules.specs.Read.{Judged, ProposesSum};
ghost use Rattle.terms.specs.Picks.{Paired, allowed, shared};

use fields::read_terms;
use proposals::derived::all_negated;
use proposals::{Proposal, Scratch};
use records::marks::BEHIND_LETTERS;
use rows::Reached;
use rules::forms::holds;
use rules::held::Forms;
use session::answers::Refusal;

// The terms of a sum: so many forms, each with its multiplier.
#[derive(Clone, Copy)]
struct Terms<'a> {
    picks: &'a [u16],
    multipliers: &'a [i32],
    ghost paired: { Paired picks.now multipliers.now },
}

// Whether form f has a kind of this range, and may be added m times. Kinds are numbers, as `kind` and `legal_multiplier` have
// them, and the least and the greatest are two arguments, as `is_between` takes them.
fn term_allowed(forms: &[i32], f: u16, m: i32, low: i32, high: i32) -> bool
    requires { Inside unknowns forms.now f }
    ensures { result ≡ allowed low high (form_at unknowns forms.now f).kind m }
{
    let kind = contents::cells::kind(forms, f);
    contents::exact::is_between(low, high, kind) && contents::content::legal_multiplier(kind, m)
}

// Whether every term is. `Inside` above and `Picked` here stay clauses, as in `contents` and `conditions`, and the kinds numbers, as above and below.
fn terms_allowed(forms: &[i32], t: Terms, low: i32, high: i32) -> bool
    requires { Picked unknowns forms.now t.picks.now }
    ensures { result ≡ all (λ u. allowed low high (form_at unknowns forms.now u.form).kind u.multiplier) (terms t.entry.picks.now t.entry.multipliers.now) }
{
    t.picks
        .iter()
        .zip(t.multipliers)
        .all(|(&f, &m)| term_allowed(forms, f, m, low, high))
}

// The tests that both rules share: the forms are in force and ascend, their kinds lie in this range, and they may be added so many times.
#[tactic(auto, unfolding(ledger::specs::Apply::finding))]
fn judge_terms(forms: Forms, t: Terms, low: i32, high: i32) -> Result<(), Refusal>
    ensures { finding_of result ≡ finding (shared unknowns forms.entry.count forms.entry.cells.now low high t.entry.picks.now t.entry.multipliers.now) }
{
    if !literals::tests::all_below(t.picks, forms.count) {
        return Err(Refusal::NotInForce);
    }
    if !literals::tests::ascend(t.picks) {
        return Err(Refusal::NotAscending);
    }
    if !terms_allowed(forms.cells, t, low, high) {
        return Err(Refusal::NotAllowed);
    }
    Ok(())
}

fn judge_farkas(forms: Forms, t: Terms) -> Result<(), Refusal>
    ensures { Judged forms.entry (FK (terms t.entry.picks.now t.entry.multipliers.now)) result }
{
    judge_terms(forms, t, rows::AT_MOST, rows::IS_ZERO)?;
    match sums::combine(forms.cells, t.picks, t.multipliers, 0) {
        Reached::Coefficient(_, _) => Err(Refusal::ConditionFails),
        Reached::Constant(k) => holds(1 <= k),
    }
}

fn judge_clash(forms: Forms, t: Terms) -> Result<(), Refusal>
    ensures { Judged forms.entry (CL (terms t.entry.picks.now t.entry.multipliers.now)) result }
{
    judge_terms(forms, t, rows::IS_DIVIDED, rows::IS_DIVIDED)?;
    let d = contents::cells::divisor(forms.cells, t.picks[0]);
    if !conditions::picked::divisors_are(forms.cells, t.picks, d) {
        return Err(Refusal::NotAllowed);
    }
    match sums::combine(forms.cells, t.picks, t.multipliers, d) {
        Reached::Coefficient(_, _) => Err(Refusal::ConditionFails),
        Reached::Constant(k) => holds(!contents::exact::is_multiple(k, d)),
    }
}

// FK and CL stay two functions: each has the contract of its own record. What they share is `read_terms`, `judge_terms` and `all_negated`.
// `Listed` and the three arguments stay as they are, as in `fields` and `pairs`.
pub fn farkas(forms: Forms, bytes: &[u8], scratch: &mut Scratch) -> Result<Proposal, Refusal>
    requires { Listed behind_letters 6 1 most_terms bytes.now }
    ensures { ProposesSum forms.entry (FK (terms_behind behind_letters bytes.now)) result scratch.new }
{
    let n = read_terms(
        &mut scratch.first,
        &mut scratch.cells,
        bytes,
        BEHIND_LETTERS,
    );
    let t = Terms {
        picks: &scratch.first[..n],
        multipliers: &scratch.cells[..n],
    };
    let v = judge_farkas(forms, t);
    all_negated(v, &scratch.first[..n], &mut scratch.second)
}

pub fn clash(forms: Forms, bytes: &[u8], scratch: &mut Scratch) -> Result<Proposal, Refusal>
    requires { Listed behind_letters 6 1 most_terms bytes.now }
    ensures { ProposesSum forms.entry (CL (terms_behind behind_letters bytes.now)) result scratch.new }
{
    let n = read_terms(
        &mut scratch.first,
        &mut scratch.cells,
        bytes,
        BEHIND_LETTERS,
    );
    let t = Terms {
        picks: &scratch.first[..n],
        multipliers: &scratch.cells[..n],
    };
    let v = judge_clash(forms, t);
    all_negated(v, &scratch.first[..n], &mut scratch.second)
}
