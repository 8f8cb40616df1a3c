// Setting lent cells to 0.
ghost use Rattle.std.specs.Prelude.{◌≡◌, length, replicate};

// The most cells that are cleared at once.
const PART: usize = 480;

// Every cell becomes zero. Most parts that are freed are empty, and take no call.
pub fn clear<T: Copy>(cells: &mut [T], zero: T)
    ensures { cells.new ≡ replicate (length cells.old) zero }
{
    if 0 < cells.len() {
        clear_part(cells, zero);
    }
}

// A long part is cleared half by half: where instructions are counted, a long `memset` counts byte by byte.
#[tactic(auto, using(crate::proofs::Filling::filling))]
fn clear_part<T: Copy>(cells: &mut [T], zero: T)
    ensures { cells.new ≡ replicate (length cells.old) zero }
{
    if PART < cells.len() {
        let (front, back) = cells.split_at_mut(cells.len() / 2);
        clear_part(front, zero);
        clear_part(back, zero);
        return;
    }
    clear_at_once(cells, zero);
}

// Every cell becomes zero, in one pass. So the start clears its numbers: it is done once, and twenty passes over their parts take it twice the time.
#[tactic(auto, using(crate::proofs::Filling::filling))]
pub fn clear_at_once<T: Copy>(cells: &mut [T], zero: T)
    ensures { cells.new ≡ replicate (length cells.old) zero }
{
    for cell in cells.iter_mut() {
        *cell = zero;
    }
}
