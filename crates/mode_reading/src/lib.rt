// Modes of a setup packet, read into the table (003, section 4.2.4, "Modes").
// Each field is judged as soon as it is read; a refusal says nothing of the buffer, which the outermost function clears.
#![tactic(auto)]

ghost use Rattle.std.specs.Prelude.{◌≡◌, ◌+◌, ◌*◌, ◌≤◌};
ghost use Rattle.reading.specs.Reader.{many, into, into1};
ghost use Rattle.reading.specs.Inner.Table.{table, put_row};
ghost use Rattle.bits.specs.Inner.Cursors.{position, stepped, Wrote};
ghost use Rattle.mode.specs.Reading.{mode};
ghost use Rattle.mode.specs.Layout.{mode_width, modes_need, mode_row};
ghost use Rattle.mode_reading.specs.Inner.Types.{types};

use bits::Cursor;
use bits::refusal::{Reason, Refusal};
use mode::MODE_WIDTH;

// The window type and the transform type: each has to be 0 (01, refusal 9).
fn read_types(packet: &[u8], from: Cursor) -> Result<Cursor, Refusal>
    ensures { stepped result ≡ types packet.now (position from) }
{
    let (window, at_transform) = from.field(packet, 16)?;
    if window != 0 {
        return Err(Refusal {
            reason: Reason::NotZero,
            place: from,
        });
    }
    let (transform, next) = at_transform.field(packet, 16)?;
    if transform != 0 {
        return Err(Refusal {
            reason: Reason::NotZero,
            place: at_transform,
        });
    }
    Ok(next)
}

// One mode, its row written at `at`. `mapping_count` is how many mappings are set up.
pub fn read_mode(
    packet: &[u8],
    from: Cursor,
    mapping_count: u32,
    modes: &mut [u8],
    at: usize,
) -> Result<Cursor, Refusal>
    requires { at ≤ modes_need }
    ensures { Wrote (into1 (put_row mode_row) (mode mapping_count packet.now (position from)) (table modes.old at))
        result (table modes.new (at + mode_width)) }
{
    let (blockflag, at_types) = from.bit(packet)?;
    let at_mapping = read_types(packet, at_types)?;
    let (mapping, next) = at_mapping.field(packet, 8)?;
    if mapping >= mapping_count {
        return Err(Refusal {
            reason: Reason::NotSetUp,
            place: at_mapping,
        });
    }
    let row = [blockflag as u8, mapping as u8];
    reading::buffers::write(modes, at, &row);
    Ok(next)
}

// `count` modes, their rows from the front of the buffer.
pub fn read_modes(
    packet: &[u8],
    from: Cursor,
    count: usize,
    mapping_count: u32,
    modes: &mut [u8],
) -> Result<Cursor, Refusal>
    requires { count ≤ 64 }
    ensures { Wrote (into (put_row mode_row) (many (mode mapping_count) count packet.now (position from)) (table modes.old 0))
        result (table modes.new (mode_width * count)) }
{
    let mut k = from;
    for i in 0..count {
        k = read_mode(packet, k, mapping_count, modes, MODE_WIDTH * i)?;
    }
    Ok(k)
}
