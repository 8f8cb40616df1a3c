// The literals of a line without one of them.
ghost use Rattle.std.specs.Prelude.{◌≤◌, length};
ghost use Rattle.literals.specs.Lists.{Gathered};

// The literals of a line but one, to the front of out; and how many they are, since nothing is taken from a heap.
pub fn gather(out: &mut [u16], line: &[u16], less: u16) -> usize
    requires { length line.now ≤ length out.old }
    ensures { Gathered line.now less result out.new }
{
    let mut count: usize = 0;
    for &x in line {
        out[count] = x;
        count += (x != less) as usize;
    }
    count
}
