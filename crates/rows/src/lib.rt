// What rows and forms are, and the laws of the arithmetic on them. The crates above work on lent cells; here are only the numbers that they
// share, and what a sum of rows reaches.
#![tactic(auto)]

// What a sum of rows reaches. Neither of the two is a failure, and the definition `reached` names both.
#[derive(Clone, Copy)]
pub enum Reached {
    // The lowest unknown whose sum is no multiple of the modulus, with that sum.
    Coefficient(usize, i64),
    // Every unknown's sum is a multiple: the sum of the constants.
    Constant(i64),
}

// The kinds of forms.
pub const AT_MOST: i32 = 1;

pub const IS_ZERO: i32 = 2;

pub const IS_DIVIDED: i32 = 3;
// The number of unknowns.
pub const UNKNOWNS: usize = 12;
// A row is a constant and a coefficient for each unknown.
pub const ROW_CELLS: usize = UNKNOWNS + 1;
// A form is a kind, a divisor and a row.
pub const FORM_CELLS: usize = UNKNOWNS + 3;
// The most terms of a sum.
pub const MOST_TERMS: usize = 32;
// The largest constant or coefficient.
pub const LARGEST_NUMBER: i32 = 1_000_000_000;

pub const LARGEST_DIVISOR: i32 = 65_535;

pub const LARGEST_MULTIPLIER: i32 = 1_000_000;
