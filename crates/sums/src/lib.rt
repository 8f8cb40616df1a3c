// The sum of picked rows, each its multiplier times, over a modulus: of modulus 0 only 0 is a multiple.
#![tactic(auto)]

ghost use Rattle.std.specs.Prelude.{◌≡◌, ◌+◌, ◌<◌};
ghost use Rattle.rows.specs.Limits.{unknowns};
ghost use Rattle.rows.specs.Row.{plus, scaled};
ghost use Rattle.rows.specs.Summable.{row_at};
ghost use Rattle.rows.specs.Summable.{terms, reached, Summable, Addable, Small};
ghost use Rattle.rows.specs.Sum.{summed};

use rows::Reached;

pub mod summable;

// The row's cells, m times, added to the sums.
fn add_scaled(sums: &mut [i64], m: i32, row: &[i32])
    requires { Addable m sums.old row.now }
    ensures { sums.new ≡ plus sums.old (scaled m row.now) }
{
    // By index: what a zip of `iter_mut` writes is not known afterwards.
    for j in 0..row.len() {
        sums[j] = contents::exact::plus_times(sums[j], m, row[j]);
    }
}

// All thirteen sums: the constants' and each unknown's.
fn sum_rows(table: &[i32], picks: &[u16], multipliers: &[i32]) -> [i64; rows::ROW_CELLS]
    requires { Summable unknowns table.now picks.now multipliers.now }
    ensures { result ≡ summed unknowns (row_at unknowns table.now) (terms picks.now multipliers.now) }
{
    let mut sums = [0i64; rows::ROW_CELLS];
    // By index: a zip tests both lengths, and takes more instructions.
    for i in 0..picks.len() {
        add_scaled(
            &mut sums,
            multipliers[i],
            contents::cells::row(table, picks[i]),
        );
    }
    sums
}

// The lowest unknown whose sum is no multiple of the modulus, or else the constant.
fn lowest(sums: [i64; rows::ROW_CELLS], modulus: i32) -> Reached
    requires { Small sums }
    ensures { result ≡ reached modulus sums }
{
    let stray = sums[1..]
        .iter()
        .position(|&s| !contents::exact::is_multiple(s, modulus));
    match stray {
        Some(k) => Reached::Coefficient(k, sums[k + 1]),
        None => Reached::Constant(sums[0]),
    }
}

// What the sum of the picked forms' rows, each its multiplier times, reaches. Two lists side by side, as the scratch has them: to make one of pairs
// would copy both for each sum.
pub fn combine(table: &[i32], picks: &[u16], multipliers: &[i32], modulus: i32) -> Reached
    requires { Summable unknowns table.now picks.now multipliers.now }
    ensures { result ≡ reached modulus (summed unknowns (row_at unknowns table.now) (terms picks.now multipliers.now)) }
{
    lowest(sum_rows(table, picks, multipliers), modulus)
}
