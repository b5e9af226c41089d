// The line rule (01, "Audio order" 3; 000 section 9.2.6).
ghost use Rattle.std.specs.Prelude.{◌≡◌, ◌≤◌, ◌<◌};
ghost use Rattle.floor_line.specs.Line as rule;
ghost use Rattle.floor_line.specs.Inner.LineHeight.{line_height};

// floor(|dy| * (x - x0) / (x1 - x0)); the product of two 32-bit numbers fits 64 bits.
fn offset(x0: u32, x1: u32, ady: u32, x: u32) -> u32
    ensures { result ≡ rule.offset x0 x1 ady x }
{
    if x1 <= x0 || x <= x0 {
        return 0;
    }
    if x1 <= x {
        return ady;
    }
    (ady as u64 * (x - x0) as u64 / (x1 - x0) as u64) as u32
}

// The height at x on the line from (x0, h0) to (x1, h1): the line rule for Y values counted from any number.
pub fn line_height(x0: u32, h0: u32, x1: u32, h1: u32, x: u32) -> u32
    ensures { result ≡ line_height x0 h0 x1 h1 x }
{
    if h1 < h0 {
        h0 - offset(x0, x1, h0 - h1, x)
    } else {
        h0 + offset(x0, x1, h1 - h0, x)
    }
}
