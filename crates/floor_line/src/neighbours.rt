// Low and high neighbour: among earlier list places, the greatest X below and the least X above (01, "Audio order" 3; 000 sections 9.2.4 and
// 9.2.5). A floor's first X is its least and its second X its greatest, so each later place has both neighbours.
ghost use Rattle.std.specs.Prelude.{◌≡◌, ◌≤◌, ◌<◌, length};
ghost use Rattle.floor_line.specs.Neighbours.{x_at, low_neighbour, high_neighbour, IsLow, IsHigh};

pub fn low_neighbour(x: &[u16], i: usize) -> usize
    requires { (0 < i) × (i < length x.now) }
    ensures { (result ≡ low_neighbour x.now i) × (result < i)
        × (x_at x.now 0 < x_at x.now i → IsLow x.now i result) }
{
    let top = x[i];
    let mut best: usize = 0;
    for j in 0..i {
        if x[j] < top && x[best] < x[j] {
            best = j;
        }
    }
    best
}

pub fn high_neighbour(x: &[u16], i: usize) -> usize
    requires { (1 < i) × (i < length x.now) }
    ensures { (result ≡ high_neighbour x.now i) × (result < i)
        × (x_at x.now i < x_at x.now 1 → IsHigh x.now i result) }
{
    let bottom = x[i];
    let mut best: usize = 1;
    for k in 0..i {
        if bottom < x[k] && x[k] < x[best] {
            best = k;
        }
    }
    best
}
