// What a record proposes: by its mark, on forms and lines that are only read. What is written is only the scratch that the caller lends for
// the form's cells and the two lists of literals.
#![tactic(auto)]

ghost use Rattle.rows.specs.Limits.{unknowns};
ghost use Rattle.ledger.specs.Record.{make, of_rule};
ghost use Rattle.ledger.specs.Settles.{proposed};
ghost use Rattle.ledger.specs.Bytes.{rule_from, fields};
ghost use Rattle.records.specs.Marks.{rule_mark_of, record_mark_of, OfMark};
ghost use Rattle.proposals.specs.Proposing.{Proposes};
ghost use Rattle.rules.specs.Read.{forms_read, lines_read};

use fields::numbers::u16_at;
use proposals::{Proposal, Scratch};
use records::marks::{RecordMark, RuleMark};
use rules::held::{Forms, Lines};
use session::answers::Refusal;

// A rule, by its mark. `OfMark` stays a clause: it speaks of the bytes beside a mark.
fn propose_rule(
    forms: Forms,
    lines: Lines,
    bytes: &[u8],
    m: RuleMark,
    scratch: &mut Scratch,
) -> Result<Proposal, Refusal>
    requires { OfMark bytes.now (of_rule (rule_mark_of m)) }
    ensures { Proposes result scratch.new (proposed unknowns (forms_read forms.entry) (lines_read lines.entry) (make (rule_from bytes.now (rule_mark_of m)))) }
{
    match m {
        RuleMark::Fm => rules::entries::form(bytes, &mut scratch.cells),
        RuleMark::Pm => rules::entries::premise(forms.count, bytes, &mut scratch.second),
        RuleMark::Rs => resolution::resolve(
            forms.count,
            lines,
            u16_at(bytes, 2),
            u16_at(bytes, 4),
            u16_at(bytes, 6),
            scratch,
        ),
        RuleMark::Fk => terms::farkas(forms, bytes, scratch),
        RuleMark::To => pairs::totality(forms, bytes, scratch),
        RuleMark::Tr => pairs::trichotomy(forms, bytes, scratch),
        RuleMark::Eq => pairs::equation(forms, bytes, scratch),
        RuleMark::Ti => pairs::tightening(forms, bytes, scratch),
        RuleMark::Wk => pairs::weakening(forms, bytes, scratch),
        RuleMark::Cl => terms::clash(forms, bytes, scratch),
        RuleMark::Ar => remainders::remainder(forms, bytes, scratch),
        RuleMark::Lf => remainders::loosening(forms, bytes, scratch),
        RuleMark::Su => remainders::scaling_up(forms, bytes, scratch),
        RuleMark::Sd => remainders::scaling_down(forms, bytes, scratch),
    }
}

// Bytes of the right shape, by the mark that they bear.
pub fn propose(
    forms: Forms,
    lines: Lines,
    bytes: &[u8],
    m: RecordMark,
    scratch: &mut Scratch,
) -> Result<Proposal, Refusal>
    requires { OfMark bytes.now (record_mark_of m) }
    ensures { Proposes result scratch.new (proposed unknowns (forms_read forms.entry) (lines_read lines.entry) (fields bytes.now (record_mark_of m))) }
{
    match m {
        RecordMark::Op => Ok(Proposal::Opens),
        RecordMark::Wd => Ok(Proposal::Withdraws),
        RecordMark::Rule(r) => propose_rule(forms, lines, bytes, r, scratch),
    }
}
