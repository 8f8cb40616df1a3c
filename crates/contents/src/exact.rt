// Single operations on signed numbers, each exact: the result is the whole number that it stands for.
ghost use Rattle.std.specs.Prelude.{◌≡◌, ◌+◌, ◌*◌, ◌^◌, ◌<◌, nat_abs, ◌+ℤ◌, ◌*ℤ◌};
ghost use Rattle.ints.specs.Tests.{eq_z, divides, between};

// sum + m * k, which stays within an i64.
pub fn plus_times(sum: i64, m: i32, k: i32) -> i64
    requires { nat_abs sum + nat_abs m * nat_abs k < 2 ^ 63 }
    ensures { result ≡ sum +ℤ (m *ℤ k) }
{
    sum + i64::from(m) * i64::from(k)
}

// Whether x is n + m * y.
pub fn is_affine(x: i32, n: i32, m: i32, y: i32) -> bool
    ensures { result ≡ eq_z x (n +ℤ (m *ℤ y)) }
{
    i64::from(x) == plus_times(i64::from(n), m, y)
}

// Whether x is a multiple of d; of 0, whether it is 0.
pub fn is_multiple(x: i64, d: i32) -> bool
    requires { nat_abs x < 2 ^ 63 }
    ensures { result ≡ divides d x }
{
    x.unsigned_abs().is_multiple_of(u64::from(d.unsigned_abs()))
}

// Whether low <= x <= high.
pub fn is_between(low: i32, high: i32, x: i32) -> bool
    ensures { result ≡ between low high x }
{
    low <= x && x <= high
}
