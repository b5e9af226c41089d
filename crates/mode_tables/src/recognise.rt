// Whether a table that is handed in is the writing-out of some modes.
ghost use Rattle.std.specs.Prelude.{◌≤◌, ◌≡◌, true, ◌↔◌};
ghost use Rattle.mode_tables.specs.Inner.Recognised.{ModesRecognised};
ghost use Rattle.mode.specs.Inner.Decode.{mode_of};
ghost use Rattle.mode.specs.Inner.Valid.{ValidMode};

use mode::MODE_WIDTH;

// Whether the two numbers are those of a mode that meets every rule.
fn is_mode(blockflag: u8, mapping: u8, mapping_count: u32) -> bool
    ensures { (result ≡ true) ↔ ValidMode mapping_count (mode_of blockflag mapping) }
{
    blockflag <= 1 && (mapping as u32) < mapping_count
}

// Whether the table is the writing-out of `count` modes where `mapping_count` mappings are set up, zeros behind them.
pub fn are_modes(modes: &[u8], count: usize, mapping_count: u32) -> bool
    requires { count ≤ 64 }
    ensures { (result ≡ true) ↔ ModesRecognised mapping_count count modes.now }
{
    if modes.len() < MODE_WIDTH * count {
        return false;
    }
    for i in 0..count {
        if !is_mode(
            modes[MODE_WIDTH * i],
            modes[MODE_WIDTH * i + 1],
            mapping_count,
        ) {
            return false;
        }
    }
    reading::zeros::zeros(modes, MODE_WIDTH * count)
}
