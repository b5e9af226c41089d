// The body of an audio packet: floors, then residues (01, "Audio order" 2 to 5).
#![tactic(auto)]

ghost use Rattle.std.specs.Prelude.{◌*◌, ◌≤◌, length};
ghost use Rattle.bits.specs.Inner.Cursors.{position};
ghost use Rattle.book_codeword.specs.Inner.Stored.{lengths_in};
ghost use Rattle.requests.specs.Run.{read, run};
ghost use Rattle.requests.specs.Values.{whole_values};
ghost use Rattle.floor_requests.specs.Requests.{floor_requests};
ghost use Rattle.audio_body.specs.Inner.Body.{floors_in, body_in, BodyReadable, BodyIs};

use audio_floors::read_floors;
use audio_residues::read_residues;
use bits::Cursor;
use codeword_list::{Progress, Stop};
use setup::lent::LentTables;

// Which floors are used, also where a floor is cut, and how reading the codewords of the residues ended.
#[derive(Clone, Copy)]
pub struct BodyRead {
    pub used: [u8; 255],
    pub words: Result<Progress, Stop>,
}

// The floors, drawn into the curves; then, unless a floor was cut, the residues, whose codewords go into the list.
pub fn read_body(
    packet: &[u8],
    from: Cursor,
    channels: u32,
    mapping: usize,
    half: u32,
    tables: LentTables<'_>,
    curves: &mut [u8],
    words: &mut [u32],
) -> BodyRead
    requires { BodyReadable tables.mappings.now tables.floors.now tables.residues.now tables.plans.now tables.books.now tables.lengths.now tables.codewords.now mapping channels half
        × (channels * half ≤ length curves.old) }
    ensures { BodyIs
        (run (read (lengths_in tables.entry.books.now tables.entry.lengths.now))
        (body_in tables.entry.books.now tables.entry.floors.now tables.entry.residues.now tables.entry.plans.now tables.entry.mappings.now mapping channels half)
        packet.now (position from))
        (floors_in tables.entry.mappings.now tables.entry.floors.now mapping channels)
        (whole_values (read (lengths_in tables.entry.books.now tables.entry.lengths.now)) floor_requests
        (floors_in tables.entry.mappings.now tables.entry.floors.now mapping channels) packet.now (position from))
        channels half result curves.old curves.new words.old words.new }
{
    let floors = read_floors(
        packet,
        from,
        channels,
        mapping,
        half as usize,
        tables,
        curves,
    );
    let used = floors.used;
    match floors.end {
        Ok(at) => BodyRead {
            used,
            words: read_residues(packet, at, channels, &used, mapping, half, tables, words),
        },
        Err(cut) => {
            let none = Progress {
                at: cut.place,
                count: 0,
            };
            BodyRead {
                used,
                words: Err(Stop::Cut(none)),
            }
        }
    }
}
