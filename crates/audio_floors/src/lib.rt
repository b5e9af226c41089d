// The floors of an audio packet's channels: read in order of the channels, and their curves drawn into the lent bytes (01, "Audio order" 2 and 3).
#![tactic(auto)]

pub mod channel;

ghost use Rattle.std.specs.Prelude.{◌≡◌, ◌*◌, ◌≤◌, ◌<◌, length};
ghost use Rattle.bits.specs.Inner.Cursors.{position};
ghost use Rattle.book_codeword.specs.Inner.Stored.{lengths_in};
ghost use Rattle.floor_values.specs.Inner.Stored.{floor_in};
ghost use Rattle.mapping_row.specs.Inner.Readable.{mapping_in, MappingReadable};
ghost use Rattle.audio.specs.Channels.{floor_number, floors_of};
ghost use Rattle.audio_floors.specs.Inner.Floors.{FloorsReadable, FloorsAre};

use bits::Cursor;
use book_codeword::Codebooks;
use channel::{Cut, read_channel};
use floor_row::FloorRow;
use mapping_row::MappingRow;
use reading::buffers::clear;
use setup::lent::LentTables;

// What the floors of all channels come to.
#[derive(Clone, Copy)]
pub struct FloorsRead {
    // For each channel 1 where its floor is used; zeros behind the last channel, and from a cut on. Bytes, as the answer has them for C (AudioAnswer).
    pub used: [u8; 255],
    // The position behind the last floor, or the cut.
    pub end: Result<Cursor, Cut>,
}

// The number of a channel's floor.
fn channel_floor(row: MappingRow, channels: u32, channel: usize) -> usize
    requires { MappingReadable channels row.mappings.now row.number × (channels ≤ 255) × (channel < channels) }
    ensures { result ≡ floor_number (mapping_in row.entry.mappings.now row.entry.number) channel }
{
    let submap = row.channel_submap(channel);
    row.submap_floor(submap as usize) as usize
}

// The floors of channels 0, 1, .. and their curves, `half` bytes a channel. A cut ends reading: the channel's curve and all later ones are zeros.
pub fn read_floors(
    packet: &[u8],
    from: Cursor,
    channels: u32,
    mapping: usize,
    half: usize,
    tables: LentTables<'_>,
    curves: &mut [u8],
) -> FloorsRead
    requires { (channels ≤ 255) × (half ≤ 4096) × (channels * half ≤ length curves.old)
        × FloorsReadable channels mapping tables.mappings.now tables.floors.now tables.books.now tables.lengths.now tables.codewords.now }
    ensures { FloorsAre (lengths_in tables.entry.books.now tables.entry.lengths.now) channels half
        (floors_of (floor_in tables.entry.floors.now) (mapping_in tables.entry.mappings.now mapping) channels)
        packet.now (position from) result curves.old curves.new }
{
    let codebooks = Codebooks {
        books: tables.books,
        lengths: tables.lengths,
        codewords: tables.codewords,
    };
    let mapping_row = MappingRow {
        mappings: tables.mappings,
        number: mapping,
    };
    let count = channels as usize;
    let end = count * half;
    let mut used = [0u8; 255];
    let mut at = from;
    let mut start: usize = 0;
    for channel in 0..count {
        let number = channel_floor(mapping_row, channels, channel);
        let row = FloorRow {
            floors: tables.floors,
            number,
        };
        match read_channel(packet, at, row, codebooks, &mut curves[start..start + half]) {
            Ok((is_used, next)) => {
                used[channel] = is_used as u8;
                at = next;
                start += half;
            }
            Err(cut) => {
                clear(&mut curves[start + half..end]);
                return FloorsRead {
                    used,
                    end: Err(cut),
                };
            }
        }
    }
    FloorsRead { used, end: Ok(at) }
}
