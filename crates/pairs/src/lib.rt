// The rules on two or three forms: TO, TR, EQ, TI and WK. Each reads its fields, tests that the forms are in force and of their kinds, and
// then its own condition on rows.
#![tactic(auto)]

ghost use Rattle.std.specs.Prelude.{◌≡◌, length};
ghost use Rattle.ledger.specs.Record.{TO, TR, EQ, TI, WK, to, tr, eq, ti, wk, rule_layout};
ghost use Rattle.ledger.specs.Bytes.{u16_at, i32_at};
ghost use Rattle.rules.specs.Read.{Judged, ProposesRule};

use fields::numbers::{i32_at, u16_at};
use proposals::derived::{three, two};
use proposals::{Proposal, Scratch};
use rules::forms::{both_are, holds};
use rules::held::Forms;
use session::answers::Refusal;

// TO, EQ and WK stay three functions: each has the contract of its own record, and they differ in kinds, condition and sign. What they share is
// `both_are`, `holds` and `two`. All rules are lent forms, bytes and scratch, three arguments: a struct of them would be made for this one call. And
// how many bytes there are stays a clause, with another number for each record.
pub fn totality(forms: Forms, bytes: &[u8], scratch: &mut Scratch) -> Result<Proposal, Refusal>
    requires { length bytes.now ≡ (rule_layout to).bytes }
    ensures { ProposesRule forms.entry (TO (u16_at bytes.now 2) (u16_at bytes.now 4)) result scratch.new × (scratch.new.cells ≡ scratch.old.cells) }
{
    let a = u16_at(bytes, 2);
    let b = u16_at(bytes, 4);
    both_are(forms, rows::AT_MOST, a, rows::AT_MOST, b)?;
    let v = holds(conditions::compare::is_one_minus(forms.cells, b, a));
    two(v, a, 0, b, scratch)
}

fn judge_trichotomy(forms: Forms, z: u16, u: u16, v: u16) -> Result<(), Refusal>
    ensures { Judged forms.entry (TR z u v) result }
{
    if forms.count <= z {
        return Err(Refusal::NotInForce);
    }
    if forms.count <= u {
        return Err(Refusal::NotInForce);
    }
    if forms.count <= v {
        return Err(Refusal::NotInForce);
    }
    if contents::cells::kind(forms.cells, z) != rows::IS_ZERO {
        return Err(Refusal::NotAllowed);
    }
    if contents::cells::kind(forms.cells, u) != rows::AT_MOST {
        return Err(Refusal::NotAllowed);
    }
    if contents::cells::kind(forms.cells, v) != rows::AT_MOST {
        return Err(Refusal::NotAllowed);
    }
    if !conditions::compare::is_one_more(forms.cells, u, z) {
        return Err(Refusal::ConditionFails);
    }
    if !conditions::compare::is_one_minus(forms.cells, v, z) {
        return Err(Refusal::ConditionFails);
    }
    Ok(())
}

pub fn trichotomy(forms: Forms, bytes: &[u8], scratch: &mut Scratch) -> Result<Proposal, Refusal>
    requires { length bytes.now ≡ (rule_layout tr).bytes }
    ensures { ProposesRule forms.entry (TR (u16_at bytes.now 2) (u16_at bytes.now 4) (u16_at bytes.now 6)) result scratch.new × (scratch.new.cells ≡ scratch.old.cells) }
{
    let z = u16_at(bytes, 2);
    let u = u16_at(bytes, 4);
    let w = u16_at(bytes, 6);
    let v = judge_trichotomy(forms, z, u, w);
    three(v, z, u, w, scratch)
}

pub fn equation(forms: Forms, bytes: &[u8], scratch: &mut Scratch) -> Result<Proposal, Refusal>
    requires { length bytes.now ≡ (rule_layout eq).bytes }
    ensures { ProposesRule forms.entry (EQ (u16_at bytes.now 2) (u16_at bytes.now 4)) result scratch.new × (scratch.new.cells ≡ scratch.old.cells) }
{
    let z = u16_at(bytes, 2);
    let a = u16_at(bytes, 4);
    both_are(forms, rows::IS_ZERO, z, rows::AT_MOST, a)?;
    let v = holds(conditions::compare::is_either(forms.cells, a, z));
    two(v, z, 1, a, scratch)
}

pub fn tightening(forms: Forms, bytes: &[u8], scratch: &mut Scratch) -> Result<Proposal, Refusal>
    requires { length bytes.now ≡ (rule_layout ti).bytes }
    ensures { ProposesRule forms.entry (TI (u16_at bytes.now 2) (u16_at bytes.now 4) (i32_at bytes.now 6)) result scratch.new × (scratch.new.cells ≡ scratch.old.cells) }
{
    let a = u16_at(bytes, 2);
    let b = u16_at(bytes, 4);
    let c = i32_at(bytes, 6);
    both_are(forms, rows::AT_MOST, a, rows::AT_MOST, b)?;
    if !contents::content::legal_factor(c) {
        return Err(Refusal::NotAllowed);
    }
    let v = holds(conditions::tighten::tightens(forms.cells, a, b, c));
    two(v, a, 1, b, scratch)
}

pub fn weakening(forms: Forms, bytes: &[u8], scratch: &mut Scratch) -> Result<Proposal, Refusal>
    requires { length bytes.now ≡ (rule_layout wk).bytes }
    ensures { ProposesRule forms.entry (WK (u16_at bytes.now 2) (u16_at bytes.now 4)) result scratch.new × (scratch.new.cells ≡ scratch.old.cells) }
{
    let z = u16_at(bytes, 2);
    let g = u16_at(bytes, 4);
    both_are(forms, rows::IS_ZERO, z, rows::IS_DIVIDED, g)?;
    let v = holds(conditions::compare::same_row(forms.cells, z, g));
    two(v, z, 1, g, scratch)
}
