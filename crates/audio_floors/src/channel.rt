// The floor of one channel: its values, and its curve.
ghost use Rattle.std.specs.Prelude.{◌≡◌, ◌≤◌, ◌<◌, length};
ghost use Rattle.bits.specs.Inner.Cursors.{position};
ghost use Rattle.book_codeword.specs.Inner.Stored.{lengths_in};
ghost use Rattle.floor_values.specs.Inner.Stored.{floor_in, FloorStored};
ghost use Rattle.floor_requests.specs.Requests as requested;
ghost use Rattle.audio.specs.Curves.{curve_of};
ghost use Rattle.audio_floors.specs.Inner.Floors.{values_curve, XListStored, Drawable, ChannelIs};

use bits::Cursor;
use bits::refusal::Refusal;
use book_codeword::Codebooks;
use floor::{FLOOR_WIDTH, X_LIST_PLACE};
use floor_row::FloorRow;
use floor_values::values::read_values;
use reading::buffers::clear;

// The packet ends within what is read: the first bit of what is cut. That is no refusal, since what was read before it counts.
#[derive(Clone, Copy)]
pub struct Cut {
    pub place: Cursor,
}

// The curve of as many X as values, worked out in `y` and `flags`: final Y and flags, then the lines between the flagged points.
fn draw_points(
    x: &[u16],
    values: &[u16],
    multiplier: u8,
    y: &mut [u8],
    flags: &mut [u8],
    out: &mut [u8],
)
    requires { (length y.old ≡ length values.now) × (length flags.old ≡ length values.now) }
    ensures { out.new ≡ values_curve x.now values.now multiplier (length out.old) }
{
    floor_points::final_y(x, values, multiplier, y, flags);
    floor_curve::curve(x, y, flags, multiplier, out);
}

fn draw_values(x: &[u16], values: &[u16], multiplier: u8, out: &mut [u8])
    requires { length values.now ≤ 65 }
    ensures { out.new ≡ values_curve x.now values.now multiplier (length out.old) }
{
    let n = values.len();
    let mut y = [0u8; 65];
    let mut flags = [0u8; 65];
    draw_points(x, values, multiplier, &mut y[..n], &mut flags[..n], out);
}

// The curve of a floor which is used and has these values.
fn draw_floor(row: FloorRow, values: &[u16], out: &mut [u8])
    requires { Drawable row.floors.now row.number (length values.now) }
    ensures { out.new
        ≡ curve_of (length out.old) (floor_in row.entry.floors.now row.entry.number) (requested.values values.now) }
{
    let first = FLOOR_WIDTH * row.number + X_LIST_PLACE;
    let end = first + row.x_count() as usize;
    let multiplier = row.multiplier() as u8;
    draw_values(&row.floors[first..end], values, multiplier, out);
}

// Whether the floor of a channel is used, with the position behind it. Its curve fills `out`: zeros where it is unused or cut short.
pub fn read_channel(
    packet: &[u8],
    from: Cursor,
    row: FloorRow,
    codebooks: Codebooks,
    out: &mut [u8],
) -> Result<(bool, Cursor), Cut>
    requires { FloorStored row.floors.now codebooks.books.now codebooks.lengths.now codebooks.codewords.now row.number
        × XListStored row.floors.now row.number }
    ensures { ChannelIs (lengths_in codebooks.entry.books.now codebooks.entry.lengths.now) (floor_in row.entry.floors.now row.entry.number)
        packet.now (position from) (length out.old) result out.new }
{
    let mut values = [0u16; 65];
    match read_values(packet, from, row, codebooks, &mut values) {
        Ok((true, next)) => {
            let n = row.x_count() as usize;
            draw_floor(row, &values[..n], out);
            Ok((true, next))
        }
        Ok((false, next)) => {
            clear(out); // the curve of an unused floor
            Ok((false, next))
        }
        Err(Refusal { place, .. }) => {
            clear(out); // that of a floor cut short
            Err(Cut { place })
        }
    }
}
