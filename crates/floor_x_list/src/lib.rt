// What follows a floor's classes in a setup packet: multiplier, range bits, X list (004, "header decode", steps 13 to 22).
// Refusal 12 has its place at the floor's type, which stands at `place`.
#![tactic(auto)]

ghost use Rattle.std.specs.Prelude.{◌≡◌, ◌+◌, ◌≤◌, replicate};
ghost use Rattle.reading.specs.Reader.{mapped, into};
ghost use Rattle.reading.specs.Inner.Table.{table, put_row};
ghost use Rattle.bits.specs.Inner.Cursors.{position, outcome, Wrote};
ghost use Rattle.numbers.specs.Inner.Cell.{cell};
ghost use Rattle.floor.specs.XListReading.{x_values, ends, ends_from};
ghost use Rattle.floor_x_list.specs.Inner.Pieces.{with_list, ends_in_buffer};
ghost use Rattle.floor.specs.Content.{x_list_room};

use bits::Cursor;
use bits::refusal::{Reason, Refusal};
use floor::X_LIST_ROOM;
use reading::buffers;

// The X values, from place 2 on. The count is judged before each is read: of more than 63 the 64th is refused.
pub fn read_x_values(
    packet: &[u8],
    from: Cursor,
    place: Cursor,
    rangebits: usize,
    value_count: usize,
    list: &mut [u16],
) -> Result<Cursor, Refusal>
    requires { rangebits ≤ 15 }
    ensures { Wrote
        (into (put_row cell) (x_values (position place) rangebits value_count packet.now (position from)) (table list.old 2))
        result (table list.new (2 + value_count)) }
{
    if value_count <= 63 {
        return numbers::read_numbers(packet, from, rangebits, value_count, list, 2);
    }
    numbers::read_numbers(packet, from, rangebits, 63, list, 2)?;
    Err(Refusal {
        reason: Reason::XList,
        place,
    })
}

// What follows the classes, beside the X list that went into a buffer.
#[derive(Clone, Copy)]
pub struct Ends {
    pub multiplier: u32,
    pub rangebits: u32,
}

// The X list, judged when it is complete.
pub fn read_x_list(
    packet: &[u8],
    from: Cursor,
    place: Cursor,
    value_count: usize,
    multiplier: u32,
    rangebits: u32,
    list: &mut [u16],
) -> Result<(Ends, Cursor), Refusal>
    requires { (rangebits ≤ 15) × (list.old ≡ replicate x_list_room 0) }
    ensures { mapped (with_list list.new) (outcome result)
        ≡ mapped ends_in_buffer (ends_from (position place) value_count multiplier rangebits packet.now (position from)) }
{
    buffers::put(list, 1, 1 << rangebits);
    let next = read_x_values(packet, from, place, rangebits as usize, value_count, list)?;
    if !numbers::are_distinct(&list[..2 + value_count]) {
        return Err(Refusal {
            reason: Reason::XList,
            place,
        });
    }
    Ok((
        Ends {
            multiplier,
            rangebits,
        },
        next,
    ))
}

// Multiplier, range bits, X list.
pub fn read_ends(
    packet: &[u8],
    from: Cursor,
    place: Cursor,
    value_count: usize,
    list: &mut [u16],
) -> Result<(Ends, Cursor), Refusal>
    requires { list.old ≡ replicate x_list_room 0 }
    ensures { mapped (with_list list.new) (outcome result)
        ≡ mapped ends_in_buffer (ends (position place) value_count packet.now (position from)) }
{
    let (multiplier, at_range) = from.field(packet, 2)?;
    let (rangebits, next) = at_range.field(packet, 4)?;
    read_x_list(
        packet,
        next,
        place,
        value_count,
        multiplier + 1,
        rangebits,
        list,
    )
}
