// The window's points (003, 4.3.1, "packet type, mode and window decode").
ghost use Rattle.std.specs.Prelude.{◌≤◌, ◌&&◌, ◌≡◌, eqb};
ghost use Rattle.audio.specs.Head.{window};

use audio::{Head, Window};

// Whether a side whose window flag is `flag` laps with a short block: that of a long block whose flag is not set.
fn laps_short(blockflag: u32, flag: u32) -> bool
    ensures { result ≡ (eqb blockflag 1 && eqb flag 0) }
{
    blockflag == 1 && flag == 0
}

// The four points of a block's window, where the first block size is `short`.
pub fn window(short: u32, head: Head) -> Window
    requires { (short ≤ 8192) × (head.blocksize ≤ 8192) }
    ensures { result ≡ window short head }
{
    let half = head.blocksize / 2;
    let first = head.blocksize / 4;
    let third = head.blocksize * 3 / 4;
    let lap = short / 4;
    let left = laps_short(head.blockflag, head.previous);
    let right = laps_short(head.blockflag, head.next);
    let left_start = if left { first.saturating_sub(lap) } else { 0 };
    let left_end = if left { first + lap } else { half };
    let right_start = if right {
        third.saturating_sub(lap)
    } else {
        half
    };
    let right_end = if right { third + lap } else { head.blocksize };
    Window {
        left_start,
        left_end,
        right_start,
        right_end,
    }
}
