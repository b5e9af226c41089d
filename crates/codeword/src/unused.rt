// Unused entries, whose length is 0, passed four at a time: most entries of some books are unused.
ghost use Rattle.std.specs.Prelude.{◌≡◌, ◌+◌, ◌≤◌, length};
ghost use Rattle.codeword.specs.Inner.Window.{Zeros};

// Four lengths that are there as a number: 0 where all four entries are unused. The count is constant, so that they become one load.
fn four_lengths(lengths: &[u8], at: usize) -> u64
    requires { at + 4 ≤ length lengths.now }
    ensures { result ≡ 0 → Zeros lengths.now at (at + 4) }
{
    let mut number: u64 = 0;
    for i in 0..4 {
        number += (lengths[at + i] as u64) << (8 * i);
    }
    number
}

// A place with nothing but unused entries from `from` to it: the first of four that are not all unused, or fewer than four before the end.
pub fn past_unused(lengths: &[u8], from: usize) -> usize
    requires { from ≤ length lengths.now }
    ensures { (from ≤ result) × (result ≤ length lengths.now) × Zeros lengths.now from result }
{
    // Each step passes four entries, so no `for` counts them.
    let mut at = from;
    while 4 <= lengths.len() - at {
        if four_lengths(lengths, at) != 0 {
            return at;
        }
        at += 4;
    }
    at
}
