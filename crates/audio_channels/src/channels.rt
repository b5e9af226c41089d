// How many channels a submap has, and how many live ones (01, "Audio order" 5).
ghost use Rattle.std.specs.Prelude.{◌+◌, ◌-◌, ◌*◌, ◌≤◌, ◌<◌, ◌&&◌, ◌≡◌, eqb, length, get_or};
ghost use Rattle.mapping.specs.Layout.{mapping_width, multiplex_place};
ghost use Rattle.mapping_row.specs.Inner.Readable.{mapping_in, MappingReadable};
ghost use Rattle.audio.specs.Channels.{channels_of, live_of};
ghost use Rattle.audio_channels.specs.Inner.Live.{is_live, used_bools};

use mapping_row::MappingRow;

// Whether a channel is of a submap.
fn of_submap(row: MappingRow, channel: usize, submap: usize) -> bool
    requires { channel < 256 }
    ensures { result ≡ eqb (get_or row.entry.mappings.now (mapping_width * row.entry.number + (multiplex_place + channel)) 0 - 1) submap }
{
    row.channel_submap(channel) as usize == submap
}

// Whether it is live as well.
fn live_of_submap(live: &[u8; 255], row: MappingRow, channel: usize, submap: usize) -> bool
    requires { channel < 255 }
    ensures { result ≡ (eqb (get_or row.entry.mappings.now (mapping_width * row.entry.number + (multiplex_place + channel)) 0 - 1) submap
        && is_live (get_or live.now channel 0)) }
{
    live[channel] != 0 && of_submap(row, channel, submap)
}

// Two counts, and not one that is handed a test: it would have to be said what the test answers at each channel, which is longer than the loop.
pub fn channels_of(row: MappingRow, channels: u32, submap: usize) -> u32
    requires { (channels ≤ 255) × MappingReadable channels row.mappings.now row.number }
    ensures { (result ≡ channels_of (mapping_in row.entry.mappings.now row.entry.number) channels submap) × (result ≤ 255) }
{
    let mut total: u32 = 0;
    for i in 0..channels as usize {
        total += of_submap(row, i, submap) as u32;
    }
    total
}

pub fn live_of(live: &[u8; 255], row: MappingRow, channels: u32, submap: usize) -> u32
    requires { (length live.now ≡ 255) × (channels ≤ 255) × MappingReadable channels row.mappings.now row.number }
    ensures { result ≡ live_of (mapping_in row.entry.mappings.now row.entry.number) (used_bools channels live.now) submap }
{
    let mut total: u32 = 0;
    for i in 0..channels as usize {
        total += live_of_submap(live, row, i, submap) as u32;
    }
    total
}
