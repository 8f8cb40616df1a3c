// Runs the sum of rows at the corners of what it takes, and just outside them, and prints what it reaches.
#![tactic(auto)]

ghost use Rattle.std.specs.Prelude.{◌<◌};

use rows::Reached;
use std::io;
use std::io::{BufWriter, Write};

// As many forms as a sum may have.
const CELLS: usize = rows::MOST_TERMS * rows::FORM_CELLS;

// Every form gets the constant, and forms of even and of odd number a coefficient each.
fn filled(constant: i32, even: i32, odd: i32) -> [i32; CELLS] {
    let mut table = [0i32; CELLS];
    for (number, form) in table.chunks_exact_mut(rows::FORM_CELLS).enumerate() {
        form.fill(if number % 2 == 0 { even } else { odd });
        form[2] = constant;
    }
    table
}

// All cells are 0 but one.
fn single(at: usize, number: i32) -> [i32; CELLS]
    requires { at < 480 }
{
    let mut table = [0i32; CELLS];
    table[at] = number;
    table
}

fn show<W: Write>(
    out: &mut W,
    table: &[i32],
    picks: &[u16],
    multipliers: &[i32],
    modulus: i32,
) -> io::Result<()> {
    if !sums::summable::is_summable(table, picks, multipliers) {
        return writeln!(out, "not summable");
    }
    match sums::combine(table, picks, multipliers, modulus) {
        Reached::Coefficient(unknown, sum) => writeln!(out, "unknown {unknown} sum {sum}"),
        Reached::Constant(sum) => writeln!(out, "constant {sum}"),
    }
}

// The moduli at which FK and CL are at their corners.
const MODULI: [i32; 3] = [0, 1, 65_535];

// Every form of the table, each m times.
fn all_forms<W: Write>(out: &mut W, title: &str, table: [i32; CELLS], m: i32) -> io::Result<()> {
    writeln!(out, "{title}")?;
    let multipliers = [m; rows::MOST_TERMS];
    for modulus in MODULI {
        show(out, &table, &PICKS, &multipliers, modulus)?;
    }
    Ok(())
}

// Each form once. Written out, since a constant calls no function.
const PICKS: [u16; 32] = [
    0, 1, 2, 3, 4, 5, 6, 7, 8, 9, 10, 11, 12, 13, 14, 15, 16, 17, 18, 19, 20, 21, 22, 23, 24, 25,
    26, 27, 28, 29, 30, 31,
];

// Terms that may not be summed: too many, too large, without a multiplier each.
fn outside_terms<W: Write>(out: &mut W) -> io::Result<()> {
    writeln!(out, "terms outside")?;
    let table = single(0, 0);
    let multipliers = [1_000_000i32; 33];
    show(out, &table, &[0u16; 33], &multipliers, 0)?;
    show(out, &table, &PICKS, &[1_000_001i32; 32], 0)?;
    show(out, &table, &PICKS, &multipliers, 0)
}

// A form that the table lacks a cell of, a number that is too large, and the like of it without that form.
fn outside_cells<W: Write>(out: &mut W) -> io::Result<()> {
    writeln!(out, "cells outside, and inside")?;
    let table = single(479, 1_000_000_001);
    let multipliers = [1_000_000i32; 32];
    show(out, &table[0..479], &PICKS, &multipliers, 0)?;
    show(out, &table, &PICKS, &multipliers, 0)?;
    show(out, &table, &PICKS[0..31], &multipliers[0..31], 0)
}

fn largest_numbers<W: Write>(out: &mut W) -> io::Result<()> {
    let high = filled(1_000_000_000, 1_000_000_000, 1_000_000_000);
    let low = filled(-1_000_000_000, -1_000_000_000, -1_000_000_000);
    all_forms(out, "largest numbers", high, 1_000_000)?;
    all_forms(
        out,
        "largest numbers, negative multipliers",
        high,
        -1_000_000,
    )?;
    all_forms(out, "smallest numbers", low, 1_000_000)?;
    all_forms(
        out,
        "smallest numbers, negative multipliers",
        low,
        -1_000_000,
    )
}

fn main(rt: HostRuntime) -> io::Result<()> {
    let mut out = BufWriter::new(rt.alloc(), rt.stdout())?;
    largest_numbers(&mut out)?;
    let cancelling = filled(-1_000_000_000, 1_000_000_000, -1_000_000_000);
    all_forms(
        &mut out,
        "coefficients that cancel, a negative constant",
        cancelling,
        1_000_000,
    )?;
    let divided = filled(-1, 65_535, 65_535);
    all_forms(
        &mut out,
        "multiples of the largest divisor",
        divided,
        1_000_000,
    )?;
    let last = single(14, 1);
    all_forms(
        &mut out,
        "the last unknown of the first form",
        last,
        1_000_000,
    )?;
    outside_terms(&mut out)?;
    outside_cells(&mut out)?;
    out.flush()
}
