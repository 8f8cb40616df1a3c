// The rules on divides forms: AR, LF, SU and SD. Of as many neighbours as the divisor says one is divided; a divisor of the divisor divides;
// and a factor of row and divisor may be put in or taken out.
#![tactic(auto)]

ghost use Rattle.std.specs.Prelude.{◌≡◌, ◌≤◌, length};
ghost use Rattle.ledger.specs.Limits.{longest_line};
ghost use Rattle.ledger.specs.Record.{AR, LF, SU, SD, lf, su, sd, rule_layout, behind_letters};
ghost use Rattle.ledger.specs.Checks.{scaling};
ghost use Rattle.ledger.specs.Apply.{finding};
ghost use Rattle.ledger.specs.Bytes.{u16_at, numbers_behind};
ghost use Rattle.session.specs.Answers.{finding_of};
ghost use Rattle.fields.specs.Fields.{Listed};
ghost use Rattle.rules.specs.Read.{forms_read, Judged, ProposesRule, ProposesSum};

use fields::numbers::u16_at;
use proposals::derived::{all_unnegated, two};
use proposals::{Proposal, Scratch};
use records::marks::BEHIND_LETTERS;
use rules::forms::{both_are, holds};
use rules::held::Forms;
use session::answers::Refusal;

// A form with a divisor is a divides form, as its content is legal: that there are as many forms as each divisor says tests both.
fn judge_remainder(forms: Forms, picks: &[u16]) -> Result<(), Refusal>
    requires { (1 ≤ length picks.now) × (length picks.now ≤ longest_line) }
    ensures { Judged forms.entry (AR picks.now) result }
{
    if !literals::tests::all_below(picks, forms.count) {
        return Err(Refusal::NotInForce);
    }
    if !conditions::picked::divisors_are(forms.cells, picks, picks.len() as i32) {
        return Err(Refusal::NotAllowed);
    }
    if !conditions::picked::are_neighbours(forms.cells, picks) {
        return Err(Refusal::ConditionFails);
    }
    Ok(())
}

// `Listed` here, how many bytes there are below, and the three arguments stay as they are, as in `fields` and `pairs`.
pub fn remainder(forms: Forms, bytes: &[u8], scratch: &mut Scratch) -> Result<Proposal, Refusal>
    requires { Listed behind_letters 2 1 longest_line bytes.now }
    ensures { ProposesSum forms.entry (AR (numbers_behind behind_letters bytes.now)) result scratch.new × (scratch.new.cells ≡ scratch.old.cells) }
{
    let n = fields::read_numbers(&mut scratch.first, bytes, BEHIND_LETTERS);
    let v = judge_remainder(forms, &scratch.first[..n]);
    all_unnegated(v, &scratch.first[..n], &mut scratch.second)
}

fn judge_loosening(forms: Forms, g: u16, h: u16) -> Result<(), Refusal>
    ensures { Judged forms.entry (LF g h) result }
{
    both_are(forms, rows::IS_DIVIDED, g, rows::IS_DIVIDED, h)?;
    holds(conditions::divided::loosens(forms.cells, g, h))
}

pub fn loosening(forms: Forms, bytes: &[u8], scratch: &mut Scratch) -> Result<Proposal, Refusal>
    requires { length bytes.now ≡ (rule_layout lf).bytes }
    ensures { ProposesRule forms.entry (LF (u16_at bytes.now 2) (u16_at bytes.now 4)) result scratch.new × (scratch.new.cells ≡ scratch.old.cells) }
{
    let g = u16_at(bytes, 2);
    let h = u16_at(bytes, 4);
    let v = judge_loosening(forms, g, h);
    two(v, g, 1, h, scratch)
}

fn judge_scaling(forms: Forms, g: u16, h: u16, k: u16) -> Result<(), Refusal>
    ensures { finding_of result ≡ finding (scaling (forms_read forms.entry) g h k) }
{
    both_are(forms, rows::IS_DIVIDED, g, rows::IS_DIVIDED, h)?;
    if k < 1 {
        return Err(Refusal::NotAllowed);
    }
    holds(conditions::divided::scales(forms.cells, k as i32, g, h))
}

// SU and SD stay two functions: each has the contract of its own record, and their lines differ in the order of the forms. What they share is
// `judge_scaling` and `two`.
pub fn scaling_up(forms: Forms, bytes: &[u8], scratch: &mut Scratch) -> Result<Proposal, Refusal>
    requires { length bytes.now ≡ (rule_layout su).bytes }
    ensures { ProposesRule forms.entry (SU (u16_at bytes.now 2) (u16_at bytes.now 4) (u16_at bytes.now 6)) result scratch.new × (scratch.new.cells ≡ scratch.old.cells) }
{
    let g = u16_at(bytes, 2);
    let h = u16_at(bytes, 4);
    let k = u16_at(bytes, 6);
    let v = judge_scaling(forms, g, h, k);
    two(v, g, 1, h, scratch)
}

pub fn scaling_down(forms: Forms, bytes: &[u8], scratch: &mut Scratch) -> Result<Proposal, Refusal>
    requires { length bytes.now ≡ (rule_layout sd).bytes }
    ensures { ProposesRule forms.entry (SD (u16_at bytes.now 2) (u16_at bytes.now 4) (u16_at bytes.now 6)) result scratch.new × (scratch.new.cells ≡ scratch.old.cells) }
{
    let g = u16_at(bytes, 2);
    let h = u16_at(bytes, 4);
    let k = u16_at(bytes, 6);
    let v = judge_scaling(forms, g, h, k);
    two(v, h, 1, g, scratch)
}
