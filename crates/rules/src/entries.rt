// What the office enters: forms (FM), and premises (PM), whose literals name forms in force and ascend.
ghost use Rattle.std.specs.Prelude.{◌≡◌, ◌≤◌, List, [], length};
ghost use Rattle.rows.specs.Limits.{unknowns};
ghost use Rattle.rows.specs.Form.{Form};
ghost use Rattle.ledger.specs.Limits.{longest_line};
ghost use Rattle.ledger.specs.Record.{FM, PM, fm, rule_layout, behind_letters};
ghost use Rattle.ledger.specs.Checks.{tests};
ghost use Rattle.ledger.specs.Apply.{finding};
ghost use Rattle.ledger.specs.Bytes.{form_from, numbers_behind};
ghost use Rattle.session.specs.Answers.{finding_of};
ghost use Rattle.session.specs.Limits.{form_cells};
ghost use Rattle.fields.specs.Fields.{Listed};
ghost use Rattle.rules.specs.Read.{ProposesForm, ProposesPremise};

use proposals::{NewLine, Proposal};
use records::marks::BEHIND_LETTERS;
use session::answers::Refusal;
use session::state::Session;

// To the first cells that are lent. How many bytes there are, and `Listed` below, stay clauses, as in `pairs` and `fields`.
pub fn form(bytes: &[u8], cells: &mut [i32]) -> Result<Proposal, Refusal>
    requires { (length bytes.now ≡ (rule_layout fm).bytes) × (form_cells unknowns ≤ length cells.old) }
    ensures { ProposesForm (FM (form_from bytes.now)) result cells.new }
{
    let front = &mut cells[..Session::FORM_CELLS];
    fields::read_form(front, bytes);
    if !contents::content::legal(front) {
        return Err(Refusal::IllegalContent);
    }
    Ok(Proposal::Form)
}

fn judge_premise(count: u16, literals: &[u16]) -> Result<(), Refusal>
    ensures { (fs : List Form) → length fs ≡ count → finding_of result ≡ finding (tests unknowns fs [] (PM literals.now)) }
{
    if !literals::tests::all_name_below(literals, count) {
        return Err(Refusal::NotInForce);
    }
    if !literals::tests::ascend(literals) {
        return Err(Refusal::NotAscending);
    }
    Ok(())
}

pub fn premise(count: u16, bytes: &[u8], second: &mut [u16]) -> Result<Proposal, Refusal>
    requires { Listed behind_letters 2 0 longest_line bytes.now × (length second.old ≡ longest_line) }
    ensures { ProposesPremise count (PM (numbers_behind behind_letters bytes.now)) result second.new }
{
    let n = fields::read_numbers(second, bytes, BEHIND_LETTERS);
    judge_premise(count, &second[..n])?;
    Ok(Proposal::Line(NewLine::premise(n)))
}
