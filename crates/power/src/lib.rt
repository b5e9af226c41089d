// Whether a power of two numbers of 32 bits stays within a bound, exactly, though the power itself may have billions of digits.
#![tactic(auto)]

ghost use Rattle.std.specs.Prelude.{◌≡◌, ◌^◌, ◌≤◌, leb};

// A base of 2 or more passes any bound within 33 turns; 0 and 1 take none.
pub fn power_within(base: u32, exponent: u32, bound: u32) -> bool
    ensures { result ≡ leb (base ^ exponent) bound }
{
    if exponent == 0 {
        return 1 <= bound;
    }
    if base < 2 {
        return base <= bound;
    }
    grows_within(base, exponent, bound)
}

// The powers of the base one after the other, up to the first above the bound. Not `checked_pow`, which goes on until the power passes 32 bits: a book of few
// entries and many dimensions would take ten times as many turns.
fn grows_within(base: u32, exponent: u32, bound: u32) -> bool
    requires { 2 ≤ base }
    ensures { result ≡ leb (base ^ exponent) bound }
{
    let most = bound as u64;
    let mut power: u64 = 1;
    for _ in 0..exponent {
        if most < power {
            return false;
        }
        power *= base as u64;
    }
    power <= most
}
