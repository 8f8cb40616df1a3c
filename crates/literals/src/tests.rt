// Tests of lists of literals and of forms.
ghost use Rattle.std.specs.Prelude.{◌≡◌, ltb};
ghost use Rattle.ints.specs.Tests.{all};
ghost use Rattle.ledger.specs.Literals.{names_below, ascending};

// Whether every form is in force.
pub fn all_below(picks: &[u16], count: u16) -> bool
    ensures { result ≡ all (λ f. ltb f count) picks.now }
{
    picks.iter().all(|&f| f < count)
}

// Whether every literal names a form in force.
pub fn all_name_below(literals: &[u16], count: u16) -> bool
    ensures { result ≡ names_below count literals.now }
{
    literals.iter().all(|&x| x / 2 < count)
}

// Whether each is above the one before.
pub fn ascend(numbers: &[u16]) -> bool
    ensures { result ≡ ascending numbers.now }
{
    numbers.is_sorted_by(|x, y| x < y)
}
