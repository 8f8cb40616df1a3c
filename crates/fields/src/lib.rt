// The fields of a record whose shape is right, to what is lent for them.
#![tactic(auto)]

ghost use Rattle.std.specs.Prelude.{◌≡◌, ◌+◌, length};
ghost use Rattle.ledger.specs.Limits.{carried, longest_line};
ghost use Rattle.ledger.specs.Record.{fm, rule_layout};
ghost use Rattle.ledger.specs.Bytes.{form_from};
ghost use Rattle.rows.specs.Limits.{most_terms};
ghost use Rattle.rows.specs.Form.{cells_of};
ghost use Rattle.fields.specs.Fields.{Listed, NumbersRead, TermsRead};

use session::state::Session;

pub mod numbers;

// Here and below by places: a number is read from its place in the bytes, which are never cut. And `Listed` stays a clause: it speaks of bytes
// beside a place, a width and a range, which each reader has its own.

// The form of FM, as the cells that it would take.
pub fn read_form(cells: &mut [i32], bytes: &[u8])
    requires { (length cells.old ≡ carried + 3) × (length bytes.now ≡ (rule_layout fm).bytes) }
    ensures { cells.new ≡ cells_of (form_from bytes.now) }
{
    cells[0] = i32::from(bytes[2]);
    cells[1] = i32::from(crate::numbers::u16_at(bytes, 3));
    for i in 0..Session::ROW_CELLS {
        cells[2 + i] = crate::numbers::i32_at(bytes, 5 + 4 * i);
    }
}

// The numbers behind the count at this place, to the front of cells; and how many they are, since nothing is taken from a heap.
#[tactic(auto, using(crate::proofs::FilledLaws::filling))]
pub fn read_numbers(cells: &mut [u16], bytes: &[u8], place: usize) -> usize
    requires { (length cells.old ≡ longest_line) × Listed place 2 0 longest_line bytes.now }
    ensures { NumbersRead place bytes.now result cells.new }
{
    let count = usize::from(bytes[place]);
    let from = place + 1;
    for i in 0..count {
        cells[i] = crate::numbers::u16_at(bytes, from + 2 * i);
    }
    count
}

// The terms behind the count at this place, to the front of the two lists; and how many they are, as above.
#[tactic(auto, using(crate::proofs::FilledLaws::filling))]
pub fn read_terms(forms: &mut [u16], multipliers: &mut [i32], bytes: &[u8], place: usize) -> usize
    requires { (length forms.old ≡ most_terms) × (length multipliers.old ≡ most_terms) × Listed place 6 1 most_terms bytes.now }
    ensures { TermsRead place bytes.now result forms.new multipliers.new }
{
    let count = usize::from(bytes[place]);
    let first = place + 1;
    let second = place + 3;
    for i in 0..count {
        forms[i] = crate::numbers::u16_at(bytes, first + 6 * i);
        multipliers[i] = crate::numbers::i32_at(bytes, second + 6 * i);
    }
    count
}
