// Which passes each class has a book for (001, "header decode", the bitmap pattern).
ghost use Rattle.std.specs.Prelude.{◌≡◌, ◌≤◌};
ghost use Rattle.reading.specs.Reader.{many, mapped};
ghost use Rattle.residue_reading.specs.Inner.Slots.{pad_with};
ghost use Rattle.bits.specs.Inner.Cursors.{position, outcome};
ghost use Rattle.residue.specs.Reading.{cascade};

use bits::Cursor;
use bits::refusal::Refusal;

pub fn read_cascade(packet: &[u8], from: Cursor) -> Result<(u32, Cursor), Refusal>
    ensures { outcome result ≡ cascade packet.now (position from) }
{
    let (low, at_flag) = from.field(packet, 3)?;
    let (flag, at_high) = at_flag.bit(packet)?;
    if flag == 0 {
        return Ok((low, at_high));
    }
    let (high, next) = at_high.field(packet, 5)?;
    Ok((high * 8 + low, next))
}

// The cascades of the classes, zeros behind them.
pub fn read_cascades(
    packet: &[u8],
    from: Cursor,
    classes: usize,
) -> Result<([u32; 64], Cursor), Refusal>
    requires { classes ≤ 64 }
    ensures { outcome result ≡ mapped (pad_with 0 64) (many cascade classes packet.now (position from)) }
{
    let mut numbers = [0u32; 64];
    let mut at = from;
    for i in 0..classes {
        let (number, next) = read_cascade(packet, at)?;
        numbers[i] = number;
        at = next;
    }
    Ok((numbers, at))
}
