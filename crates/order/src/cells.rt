// The clause of the order that looks at the table of forms alone: legal contents.
ghost use Rattle.std.specs.Prelude.{◌*◌, ◌≤◌, length};
ghost use Rattle.rows.specs.Limits.{unknowns};
ghost use Rattle.session.specs.Limits.{form_cells};
ghost use Rattle.walk.specs.Walk.{Exactly};
ghost use Rattle.order.specs.Levels.{FormsGood};

use session::state::Session;

// Whether every form below the count has a legal content.
pub fn forms_hold(forms: &[i32], count: usize) -> bool
    requires { form_cells unknowns * count ≤ length forms.now }
    ensures { Exactly result (FormsGood unknowns forms.now count) }
{
    // By places: what holds is said of the form at a place.
    for f in 0..count {
        let at = Session::FORM_CELLS * f;
        if !contents::content::legal(&forms[at..at + Session::FORM_CELLS]) {
            return false;
        }
    }
    true
}
