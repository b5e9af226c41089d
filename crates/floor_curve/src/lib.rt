// Floor 1: the curve that joins the flagged points (004, "curve computation", step 2; 01, "Audio order" 3).
#![tactic(auto)]

pub mod lines;
mod points;

ghost use Rattle.std.specs.Prelude.{◌≡◌, length, replicate};
ghost use Rattle.floor_line.specs.Inner.Order.{Ordered};
ghost use Rattle.floor_curve.specs.Curve as drawing;
ghost use Rattle.floor_curve.specs.Curve.{left, places, curve_at, Bytes};
ghost use Rattle.floor_curve.specs.Inner.Drawing.{Points};

use floor_line::order::link_all;
use lines::{draw_flat, draw_line};
use points::{height_at, last_at, next_after, next_linked};

// Line by line, from each flagged point to the next, as far as `out` has places; past the last point flat. The next is found by walking the order of X.
fn draw_linked(x: &[u16], y: &[u8], flags: &[u8], multiplier: u8, after: &[usize], out: &mut [u8])
    requires { Points x.now y.now flags.now × Ordered x.now after.now }
    ensures { out.new ≡ places (curve_at x.now y.now flags.now multiplier) 0 (length out.old) }
{
    let mut at: usize = 0;
    let mut left: usize = 0;
    // A turn draws a whole line, whose end is found on the way: there is no range to count by.
    while at < out.len() {
        let Some(right) = next_linked(x, flags, after, left) else {
            draw_flat(out, at, height_at(y, multiplier, left));
            return;
        };
        draw_line(
            out,
            x[left],
            height_at(y, multiplier, left),
            x[right],
            height_at(y, multiplier, right),
        );
        at = x[right] as usize;
        left = right;
    }
}

// The same for any list: both points are found by a search.
fn draw_searched(x: &[u16], y: &[u8], flags: &[u8], multiplier: u8, out: &mut [u8])
    requires { Points x.now y.now flags.now }
    ensures { out.new ≡ places (curve_at x.now y.now flags.now multiplier) 0 (length out.old) }
{
    let mut at: usize = 0;
    // As above, a turn draws a whole line.
    while at < out.len() {
        let l = last_at(x, flags, at);
        let Some(r) = next_after(x, flags, at) else {
            draw_flat(out, at, height_at(y, multiplier, l));
            return;
        };
        draw_line(
            out,
            x[l],
            height_at(y, multiplier, l),
            x[r],
            height_at(y, multiplier, r),
        );
        at = x[r] as usize;
    }
}

// The curve of points that fit each other. A floor's X can be linked in order.
fn draw_points(x: &[u16], y: &[u8], flags: &[u8], multiplier: u8, out: &mut [u8])
    requires { Points x.now y.now flags.now }
    ensures { out.new ≡ places (curve_at x.now y.now flags.now multiplier) 0 (length out.old) }
{
    let mut after = [0usize; 65];
    if link_all(x, &mut after) {
        draw_linked(x, y, flags, multiplier, &after, out);
    } else {
        draw_searched(x, y, flags, multiplier, out);
    }
}

// Whether there are as many X, Y and flags, at least one, and the first X is 0.
fn fitting(x: &[u16], y: usize, flags: usize) -> bool
    ensures { result ≡ drawing.fitting x.now y flags }
{
    !x.is_empty() && x[0] == 0 && y == x.len() && flags == x.len()
}

// The curve's first `out.len()` places. True where there are as many X, Y and flags, at least one, and the first X is 0. Otherwise false, and `out` is all
// zero. A bool, not a Result: C's torchvalley_floor_curve answers with it.
pub fn curve(x: &[u16], y: &[u8], flags: &[u8], multiplier: u8, out: &mut [u8]) -> bool
    ensures { (left result out.new
        ≡ drawing.curve x.now y.now flags.now multiplier (length out.old))
        × Bytes (curve_at x.now y.now flags.now multiplier) }
{
    if fitting(x, y.len(), flags.len()) {
        draw_points(x, y, flags, multiplier, out);
        return true;
    }
    draw_flat(out, 0, 0);
    false
}
