// The flagged points around a place: the last at or left of it, and the next right of it.
ghost use Rattle.std.specs.Prelude.{◌≡◌, IfSome, unwrap_or, ◌≤◌, ◌<◌, length, get_or};
ghost use Rattle.floor_line.specs.Inner.Order.{Ordered};
ghost use Rattle.floor_curve.specs.Curve.{x_or, last_at, next_after, IsLast, IsNext, height_at};

// The X of a place; 65,536 where there is none.
fn x_or(x: &[u16], place: Option<usize>) -> usize
    requires { IfSome place (λ j. j < length x.now) }
    ensures { result ≡ x_or x.now (unwrap_or place (length x.now)) }
{
    match place {
        Some(j) => x[j] as usize,
        None => 65536,
    }
}

pub fn last_at(x: &[u16], flags: &[u8], at: usize) -> usize
    requires { (0 < length x.now) × (length flags.now ≡ length x.now) }
    ensures { (result ≡ last_at x.now flags.now at) × (result < length x.now)
        × (get_or x.now 0 0 ≤ at → IsLast x.now flags.now at result) }
{
    let mut best: usize = 0;
    for j in 0..x.len() {
        if flags[j] != 0 && x[j] as usize <= at && x[best] < x[j] {
            best = j;
        }
    }
    best
}

pub fn next_after(x: &[u16], flags: &[u8], at: usize) -> Option<usize>
    requires { length flags.now ≡ length x.now }
    ensures { (unwrap_or result (length x.now) ≡ next_after x.now flags.now at)
        × IfSome result (λ r. r < length x.now)
        × IsNext x.now flags.now at (unwrap_or result (length x.now)) }
{
    let mut best = None;
    for j in 0..x.len() {
        if flags[j] != 0 && at < x[j] as usize && (x[j] as usize) < x_or(x, best) {
            best = Some(j);
        }
    }
    best
}

// The next flagged point after place l, in a list linked in order of X.
pub fn next_linked(x: &[u16], flags: &[u8], after: &[usize], l: usize) -> Option<usize>
    requires { Ordered x.now after.now × (length flags.now ≡ length x.now) × (l < length x.now) }
    ensures { (unwrap_or result (length x.now) ≡ next_after x.now flags.now (get_or x.now l 0))
        × IfSome result (λ r. r < length x.now) }
{
    let mut p = l;
    // The list is walked by its links to its last place, 1: there is no range to count by.
    while p != 1 {
        p = after[p];
        if flags[p] != 0 {
            return Some(p);
        }
    }
    None
}

// Y times the multiplier, at most 255.
pub fn height_at(y: &[u8], multiplier: u8, j: usize) -> u8
    requires { j < length y.now }
    ensures { result ≡ height_at y.now multiplier j }
{
    y[j].saturating_mul(multiplier)
}
