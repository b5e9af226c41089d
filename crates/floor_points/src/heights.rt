// Y values as heights counted from -65,536, since they may be negative before they are clamped (specs/Heights.antt).
ghost use Rattle.std.specs.Prelude.{◌≡◌, map, ◌+◌, ◌-◌, ◌/◌, ◌≤◌, ◌<◌, length, replicate, set, get_or};
ghost use Rattle.floor_line.specs.Inner.LineHeight.{line_height};
ghost use Rattle.floor_line.specs.Neighbours.{x_at, low_neighbour, high_neighbour};
ghost use Rattle.floor_points.specs.FinalY.{unwrapped, clamped, points, flagged};
ghost use Rattle.floor_points.specs.FinalY as final;
ghost use Rattle.floor_points.specs.Inner.Heights.{y_of, moved_height, height_of, clamped_height, points_of, Bounded, Ready};

use floor_line::lines::line_height;
use floor_line::order::{link_first_two, neighbours_of};
use reading::buffers::clear;

// A height moved by half a value: down where the value is odd, up where it is even (004, steps 24 to 26).
fn moved(height: u32, value: u32) -> u32
    requires { (height < 131072) × (value < 65536) × ((value + 1) / 2 ≤ height) }
    ensures { (result ≡ moved_height height value) × (result ≤ height + value / 2) }
{
    if value % 2 == 1 {
        height - (value + 1) / 2
    } else {
        height + value / 2
    }
}

// The height that a predicted one and the value read give (004, steps 10 to 28). Highroom is greater than lowroom where twice the height is below
// range + 131072, and with both rooms equal it does not matter which is doubled.
fn unwrap(range: u32, predicted: u32, value: u16) -> u32
    requires { (0 < range) × (range ≤ 256) × (predicted < 131072) }
    ensures { (y_of result ≡ unwrapped range (y_of predicted) value) × (result < 131072) }
{
    let v = value as u32;
    if v == 0 {
        return predicted;
    }
    if 2 * predicted < range + 131072 {
        if 2 * predicted <= v + 131072 {
            return 65536 + v;
        }
        return moved(predicted, v);
    }
    if 2 * range + 131072 <= v + 2 * predicted {
        return 65535 + range - v;
    }
    moved(predicted, v)
}

// Clamped to 0..range-1.
fn clamp(range: u32, height: u32) -> u8
    requires { (0 < range) × (range ≤ 256) }
    ensures { result ≡ clamped range (y_of height) }
{
    height.saturating_sub(65536).min(range - 1) as u8
}

// A value that is not zero flags its point and both neighbours; at a zero its own flag is unset (004, steps 16 to 19 and 27).
fn flag(value: u16, low: usize, high: usize, i: usize, flags: &mut [u8])
    requires { (low < length flags.old) × (high < length flags.old) × (i < length flags.old) }
    ensures { flags.new ≡ flagged value low high i flags.old }
{
    if value == 0 {
        flags[i] = 0;
    } else {
        flags[low] = 1;
        flags[high] = 1;
        flags[i] = 1;
    }
}

// Each value as it was read; the first two are final (004, steps 4 and 5).
fn begin_heights(values: &[u16], heights: &mut [u32])
    requires { length heights.old ≡ length values.now }
    ensures { (heights.new ≡ map height_of values.now) × Bounded heights.new }
{
    for (i, value) in values.iter().enumerate() {
        heights[i] = 65536 + *value as u32;
    }
}

// Only the first two flags are set (004, steps 2 and 3).
fn begin_flags(flags: &mut [u8])
    requires { 2 ≤ length flags.old }
    ensures { flags.new ≡ set (set (replicate (length flags.old) 0) 0 1) 1 1 }
{
    clear(flags);
    flags[0] = 1;
    flags[1] = 1;
}

// The height at place i on the line between its neighbours (004, step 9).
fn predict(x: &[u16], heights: &[u32], low: usize, high: usize, i: usize) -> u32
    requires { Bounded heights.now × (length heights.now ≡ length x.now) × (low < length x.now) × (high < length x.now) × (i < length x.now) }
    ensures { (result ≡ line_height (x_at x.now low) (get_or heights.now low 0) (x_at x.now high)
        (get_or heights.now high 0) (x_at x.now i)) × (result < 131072) }
{
    line_height(
        x[low] as u32,
        heights[low],
        x[high] as u32,
        heights[high],
        x[i] as u32,
    )
}

// Place i, between its neighbours (004, steps 9 to 28).
fn place(
    x: &[u16],
    values: &[u16],
    range: u32,
    low: usize,
    high: usize,
    i: usize,
    heights: &mut [u32],
    flags: &mut [u8],
)
    requires { Ready x.now values.now range heights.old flags.old × Bounded heights.old × (i < length x.now)
        × (low ≡ low_neighbour x.now i) × (low < i) × (high ≡ high_neighbour x.now i) × (high < i) }
    ensures { (points_of heights.new flags.new
        ≡ final.step range x.now values.now i (points_of heights.old flags.old))
        × Bounded heights.new }
{
    let predicted = predict(x, heights, low, high, i);
    let value = values[i];
    heights[i] = unwrap(range, predicted, value);
    flag(value, low, high, i, flags);
}

// Every place after the first two (004, step 6). `after` links them in order of X, in which neighbours are found (004, steps 7 and 8).
fn steps(
    x: &[u16],
    values: &[u16],
    range: u32,
    after: &mut [usize],
    heights: &mut [u32],
    flags: &mut [u8],
)
    requires { Ready x.now values.now range heights.old flags.old × Bounded heights.old × (length x.now ≤ length after.old) }
    ensures { points_of heights.new flags.new
        ≡ final.steps range x.now values.now 2 (length x.now - 2)
        (points_of heights.old flags.old) }
{
    link_first_two(x, after);
    for i in 2..x.len() {
        let low = neighbours_of(x, i, after);
        place(x, values, range, low, after[i], i, heights, flags);
    }
}

// After the last one each is clamped (01, "Audio order" 3).
fn clamp_all(range: u32, heights: &[u32], y: &mut [u8])
    requires { (length y.old ≡ length heights.now) × (0 < range) × (range ≤ 256) }
    ensures { y.new ≡ map (clamped_height range) heights.now }
{
    for (k, height) in heights.iter().enumerate() {
        y[k] = clamp(range, *height);
    }
}

// Final Y and flags of lists that fit each other, worked out in `heights`.
pub fn final_points(
    x: &[u16],
    values: &[u16],
    range: u32,
    heights: &mut [u32],
    y: &mut [u8],
    flags: &mut [u8],
)
    requires { Ready x.now values.now range heights.old flags.old × (length y.old ≡ length x.now) × (length x.now ≤ 65) }
    ensures { (y.new ≡ map (clamped range) (points range x.now values.now).ys)
        × (flags.new ≡ (points range x.now values.now).flags) }
{
    begin_heights(values, heights);
    begin_flags(flags);
    let mut after = [0usize; 65];
    steps(x, values, range, &mut after, heights, flags);
    clamp_all(range, heights, y);
}
