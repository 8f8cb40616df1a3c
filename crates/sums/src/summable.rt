// Whether picked rows can be summed without a wrap: the test of what the sum asks of its caller.
ghost use Rattle.std.specs.Prelude.{◌≡◌};
ghost use Rattle.rows.specs.Limits.{unknowns};
ghost use Rattle.rows.specs.Summable.{summand, summable};

// Whether form f of the table may be added m times.
fn is_summand(table: &[i32], f: u16, m: i32) -> bool
    ensures { result ≡ summand unknowns table.now (record { form = f; multiplier = m }) }
{
    contents::cells::has_form(table, f)
        && contents::content::all_in_range(contents::cells::row(table, f))
        && contents::exact::is_between(-rows::LARGEST_MULTIPLIER, rows::LARGEST_MULTIPLIER, m)
}

pub fn is_summable(table: &[i32], picks: &[u16], multipliers: &[i32]) -> bool
    ensures { result ≡ summable unknowns table.now picks.now multipliers.now }
{
    if rows::MOST_TERMS < picks.len() {
        return false;
    }
    if picks.len() != multipliers.len() {
        return false;
    }
    picks
        .iter()
        .zip(multipliers)
        .all(|(&f, &m)| is_summand(table, f, m))
}
