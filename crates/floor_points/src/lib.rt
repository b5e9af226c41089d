// Floor 1: the final Y values and the step 2 flags of a list of X and the values read (004, "curve computation", step 1).
#![tactic(auto)]

mod heights;

ghost use Rattle.std.specs.Prelude.{◌≡◌, false, ◌≤◌, length, replicate};
ghost use Rattle.floor_points.specs.FinalY as final;
ghost use Rattle.floor_points.specs.FinalY.{range_of, left, final_ys, Multiplies};

use heights::final_points;
use reading::buffers::clear;

// The range that goes with a multiplier (004, step 1); 0 where there is no such multiplier. Not an Option: a floor's multiplier always has a range, and who
// reads one would unwrap it.
pub fn range_of(multiplier: u8) -> u32
    ensures { (result ≡ range_of multiplier) × (result ≤ 256) }
{
    match multiplier {
        1 => 256,
        2 => 128,
        3 => 86,
        4 => 64,
        _ => 0,
    }
}

// Whether lists of so many places fit each other.
fn fitting(x: usize, multiplier: u8, values: usize, y: usize, flags: usize) -> bool
    ensures { result ≡ final.fitting x multiplier values y flags }
{
    x >= 2 && x <= 65 && range_of(multiplier) != 0 && values == x && y == x && flags == x
}

fn refuse(y: &mut [u8], flags: &mut [u8]) -> bool
    ensures { left result y.new flags.new
        ≡ left false (replicate (length y.old) 0) (replicate (length flags.old) 0) }
{
    clear(y);
    clear(flags);
    false
}

// Final Y and flags of the X list of a floor and the values read for it. True where the lists fit each other: 2 to 65 X, one value and one place of
// `y` and of `flags` for each, and a multiplier of 1 to 4. Otherwise false, and `y` and `flags` are all zero. Each `y` times the multiplier is a byte.
// A bool, not a Result: C's torchvalley_floor_points answers with it.
pub fn final_y(x: &[u16], values: &[u16], multiplier: u8, y: &mut [u8], flags: &mut [u8]) -> bool
    ensures { (left result y.new flags.new
        ≡ final_ys x.now values.now multiplier (length y.old) (length flags.old))
        × Multiplies multiplier y.new }
{
    if fitting(x.len(), multiplier, values.len(), y.len(), flags.len()) {
        let n = x.len();
        let mut heights = [0u32; 65];
        final_points(x, values, range_of(multiplier), &mut heights[..n], y, flags);
        return true;
    }
    refuse(y, flags)
}
