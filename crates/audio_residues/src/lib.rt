// The residues of all submaps of an audio packet, read into the lent list (01, "Audio order" 5).
#![tactic(auto)]

pub mod submap; // the residue of one submap

ghost use Rattle.std.specs.Prelude.{◌≤◌, length};
ghost use Rattle.bits.specs.Inner.Cursors.{position};
ghost use Rattle.codeword_list.specs.Inner.ListRead.{ReadIntoList};
ghost use Rattle.mapping_row.specs.Inner.Readable.{mapping_in};
ghost use Rattle.audio.specs.Channels.{coupled};
ghost use Rattle.audio_channels.specs.Inner.Live.{used_bools};
ghost use Rattle.audio_residues.specs.Inner.Reading.{ResiduesReadable, submaps_run};

use audio_channels::live::live_channels;
use bits::Cursor;
use codeword_list::{Progress, Stop};
use mapping_row::MappingRow;
use setup::lent::LentTables;
use submap::read_submap;

// The residues of the submaps in order; `live` has a number for each channel, 0 where it is not live.
fn read_submaps(
    packet: &[u8],
    from: Progress,
    channels: u32,
    live: &[u8; 255],
    row: MappingRow,
    half: u32,
    tables: LentTables<'_>,
    out: &mut [u32],
) -> Result<Progress, Stop>
    requires { (from.count ≤ length out.old)
        × ResiduesReadable tables.books.now tables.lengths.now tables.codewords.now tables.residues.now tables.plans.now row.mappings.now live.now channels row.number half }
    ensures { ReadIntoList (submaps_run tables.entry.books.now tables.entry.lengths.now tables.entry.residues.now tables.entry.plans.now half
        (mapping_in row.entry.mappings.now row.entry.number) (used_bools channels live.now)
        0 (mapping_in row.entry.mappings.now row.entry.number).submaps packet.now (position from.at))
        out.old from.count result out.new }
{
    let count = row.submaps() as usize;
    let mut next = from;
    for submap in 0..count {
        next = read_submap(packet, next, channels, live, row, submap, half, tables, out)?;
    }
    Ok(next)
}

// The residues of an audio packet from the end of its floors on, into a list that holds nothing yet. `used` has a number for each channel, 0 where its floor
// is not used; half the block size is `half`.
pub fn read_residues(
    packet: &[u8],
    from: Cursor,
    channels: u32,
    used: &[u8],
    mapping: usize,
    half: u32,
    tables: LentTables<'_>,
    out: &mut [u32],
) -> Result<Progress, Stop>
    requires { ResiduesReadable tables.books.now tables.lengths.now tables.codewords.now tables.residues.now tables.plans.now tables.mappings.now used.now channels mapping half }
    ensures { ReadIntoList (submaps_run tables.entry.books.now tables.entry.lengths.now tables.entry.residues.now tables.entry.plans.now half
        (mapping_in tables.entry.mappings.now mapping)
        (coupled (mapping_in tables.entry.mappings.now mapping).couplings (used_bools channels used.now))
        0 (mapping_in tables.entry.mappings.now mapping).submaps packet.now (position from))
        out.old 0 result out.new }
{
    let row = MappingRow {
        mappings: tables.mappings,
        number: mapping,
    };
    let live = live_channels(used, channels, row);
    let start = Progress { at: from, count: 0 };
    read_submaps(packet, start, channels, &live, row, half, tables, out)
}
