// The residue of one submap, read into the lent list (01, "Audio order" 5). A submap without live channels reads nothing.
ghost use Rattle.std.specs.Prelude.{◌≤◌, ◌<◌, length};
ghost use Rattle.bits.specs.Inner.Cursors.{position};
ghost use Rattle.codeword_list.specs.Inner.ListRead.{ReadIntoList};
ghost use Rattle.mapping_row.specs.Inner.Readable.{mapping_in};
ghost use Rattle.audio_channels.specs.Inner.Live.{used_bools};
ghost use Rattle.audio_residues.specs.Inner.Reading.{ResiduesReadable, submap_run};

use audio_channels::extent::submap_extent;
use book_codeword::Codebooks;
use codeword_list::{Progress, Stop};
use mapping_row::MappingRow;
use residue_decode::whole::read_residue;
use residue_pass::Decoder;
use setup::lent::LentTables;

pub fn read_submap(
    packet: &[u8],
    from: Progress,
    channels: u32,
    live: &[u8; 255],
    row: MappingRow,
    submap: usize,
    half: u32,
    tables: LentTables<'_>,
    out: &mut [u32],
) -> Result<Progress, Stop>
    requires { (from.count ≤ length out.old)
        × ResiduesReadable tables.books.now tables.lengths.now tables.codewords.now tables.residues.now tables.plans.now row.mappings.now live.now channels row.number half
        × (submap < length (mapping_in row.mappings.now row.number).submaps) }
    ensures { ReadIntoList (submap_run tables.entry.books.now tables.entry.lengths.now tables.entry.residues.now tables.entry.plans.now half
        (mapping_in row.entry.mappings.now row.entry.number) (used_bools channels live.now) submap packet.now (position from.at))
        out.old from.count result out.new }
{
    let residue = row.submap_residue(submap) as u32;
    let head = residue_row::head(tables.residues, residue);
    let extent = submap_extent(live, row, channels, submap, half, head);
    let codebooks = Codebooks {
        books: tables.books,
        lengths: tables.lengths,
        codewords: tables.codewords,
    };
    let digits = book_row::dimensions(tables.books, head.classbook);
    let top = head.classifications.pow(digits - 1); // which fits 32 bits (rule 13)
    let decoder = Decoder {
        codebooks,
        plans: tables.plans,
        residue,
        head,
        digits,
        top,
    };
    read_residue(
        packet,
        from,
        &decoder,
        extent.vectors,
        extent.partitions,
        out,
    )
}
