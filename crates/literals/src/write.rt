// Forms as literals.
ghost use Rattle.std.specs.Prelude.{◌≡◌, map, ◌+◌, ◌*◌, ◌≤◌, length, take};
ghost use Rattle.literals.specs.Lists.{Low};

// Each form's literal, negated where the sign is 1, to the front of out. The sign is a number, since it is added to twice the form.
pub fn write_literals(out: &mut [u16], picks: &[u16], sign: u16)
    requires { Low picks.now × (length picks.now ≤ length out.old) × (sign ≤ 1) }
    ensures { take (length picks.now) out.new ≡ map (λ f. 2 * f + sign) picks.now }
{
    for (i, &f) in picks.iter().enumerate() {
        out[i] = 2 * f + sign;
    }
}
