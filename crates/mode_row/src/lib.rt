// The numbers of a mode, read from its row in the table: `mode` is the mode's number, its row begins at 2 * mode. A place past the table's end reads as 0.
#![tactic(auto)]

ghost use Rattle.std.specs.Prelude.{◌+◌, ◌*◌, ◌<◌, ◌≡◌, get_or};
ghost use Rattle.mode.specs.Layout.{mode_width};

use mode::MODE_WIDTH;
use reading::buffers::get;

// The block flag of a mode: 0 for a short block, 1 for a long one.
pub fn blockflag(modes: &[u8], mode: usize) -> u8
    requires { mode < 64 }
    ensures { result ≡ get_or modes.now (mode_width * mode) 0 }
{
    get(modes, MODE_WIDTH * mode)
}

// The number of a mode's mapping.
pub fn mapping(modes: &[u8], mode: usize) -> u8
    requires { mode < 64 }
    ensures { result ≡ get_or modes.now (mode_width * mode + 1) 0 }
{
    get(modes, MODE_WIDTH * mode + 1)
}
