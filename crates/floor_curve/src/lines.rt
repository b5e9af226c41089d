// Drawing into the lent part: one line, and the flat part past the last point.
ghost use Rattle.std.specs.Prelude.{◌≡◌, ◌≤◌, ◌<◌, length};
ghost use Rattle.floor_curve.specs.Curve.{line_at};
ghost use Rattle.floor_curve.specs.Inner.Drawing.{Drawn, Flat};

use floor_line::lines::line_height;

// The height at x on the line from (x0, y0) to (x1, y1), a byte since both ends are.
fn line_at(x0: u16, y0: u8, x1: u16, y1: u8, x: usize) -> u8
    requires { x < 65536 }
    ensures { result ≡ line_at x0 y0 x1 y1 x }
{
    line_height(x0 as u32, y0 as u32, x1 as u32, y1 as u32, x as u32) as u8
}

// The line from (x0, y0) up to, and without, (x1, y1), as far as `out` has places.
pub fn draw_line(out: &mut [u8], x0: u16, y0: u8, x1: u16, y1: u8)
    ensures { Drawn x0 y0 x1 y1 out.old out.new }
{
    let end = out.len().min(x1 as usize);
    for x in x0 as usize..end {
        out[x] = line_at(x0, y0, x1, y1, x);
    }
}

// Every place from `from` on.
pub fn draw_flat(out: &mut [u8], from: usize, y: u8)
    ensures { Flat from y out.old out.new }
{
    // Not `out[from..].fill(y)`: `from` may lie past the end.
    for x in from..out.len() {
        out[x] = y;
    }
}
