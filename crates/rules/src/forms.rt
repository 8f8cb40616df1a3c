// What the rules on two forms share: the test that both are in force and of their kinds, and what a condition on them finds.
ghost use Rattle.std.specs.Prelude.{◌≡◌, ◌∷◌, []};
ghost use Rattle.ledger.specs.Checks.{◌else◌, both_are};
ghost use Rattle.ledger.specs.Apply.{finding};
ghost use Rattle.session.specs.Answers.{finding_of};
ghost use Rattle.rules.specs.Read.{forms_read};

use crate::held::Forms;
use session::answers::Refusal;

// Whether both forms are in force, and each is of its kind: a number, as the ledger's test and the cells have it, and any, where an enum would take fewer.
pub fn both_are(forms: Forms, j: i32, a: u16, k: i32, b: u16) -> Result<(), Refusal>
    ensures { finding_of result ≡ finding (both_are (forms_read forms.entry) j a k b) }
{
    if forms.count <= a {
        return Err(Refusal::NotInForce);
    }
    if forms.count <= b {
        return Err(Refusal::NotInForce);
    }
    if contents::cells::kind(forms.cells, a) != j {
        return Err(Refusal::NotAllowed);
    }
    if contents::cells::kind(forms.cells, b) != k {
        return Err(Refusal::NotAllowed);
    }
    Ok(())
}

// What a condition on rows finds.
pub fn holds(condition: bool) -> Result<(), Refusal>
    ensures { finding_of result ≡ finding ((condition else 11) ∷ []) }
{
    if condition {
        return Ok(());
    }
    Err(Refusal::ConditionFails)
}
