// The numbers of a mapping, read from its row in the table: the row of mapping number n begins at 804 * n. A place past the table's end reads as 0.
// Each number has a method of its own, one read at its place: one method of any place would not say which number it gives.
#![tactic(auto)]

ghost use Rattle.std.specs.Prelude.{◌+◌, ◌-◌, ◌*◌, ◌<◌, ◌≡◌, get_or};
ghost use Rattle.mapping.specs.Layout.{mapping_width, couplings_place, multiplex_place, submaps_place};

use mapping::{COUPLINGS_PLACE, MAPPING_WIDTH, MULTIPLEX_PLACE, SUBMAPS_PLACE};
use reading::buffers::get;

// The number of coupling steps, which takes two places. Not by from_le_bytes: the sum is the one that the table's definition has.
pub fn two_places(low: u8, high: u8) -> usize
    ensures { (result ≡ low + 256 * high) × (low < 256) }
{
    low as usize + 256 * high as usize
}

// A mapping's row in the table of mappings: its number, and the table. A setup has at most 64 mappings, which `few` says: it keeps every place of a row within
// a usize.
#[derive(Clone, Copy)]
pub struct MappingRow<'a> {
    pub mappings: &'a [u8],
    pub number: usize,
    pub ghost few: { number < 64 },
}

impl MappingRow<'_> {
    // How many coupling steps it has, 0 to 256.
    pub fn coupling_steps(self) -> usize
        ensures { result ≡ get_or self.entry.mappings.now (mapping_width * self.entry.number) 0
            + 256 * get_or self.entry.mappings.now (mapping_width * self.entry.number + 1) 0 }
    {
        two_places(
            get(self.mappings, MAPPING_WIDTH * self.number),
            get(self.mappings, MAPPING_WIDTH * self.number + 1),
        )
    }

    // The channel that a coupling step treats as magnitude.
    pub fn magnitude(self, step: usize) -> u8
        requires { step < 256 }
        ensures { result ≡ get_or self.entry.mappings.now (mapping_width * self.entry.number + (couplings_place + 2 * step)) 0 }
    {
        get(
            self.mappings,
            MAPPING_WIDTH * self.number + (COUPLINGS_PLACE + 2 * step),
        )
    }

    // The channel that a coupling step treats as angle.
    pub fn angle(self, step: usize) -> u8
        requires { step < 256 }
        ensures { result ≡ get_or self.entry.mappings.now (mapping_width * self.entry.number + (couplings_place + 2 * step + 1)) 0 }
    {
        get(
            self.mappings,
            MAPPING_WIDTH * self.number + (COUPLINGS_PLACE + 2 * step + 1),
        )
    }

    // How many submaps it has, 1 to 16.
    pub fn submaps(self) -> u8
        ensures { result ≡ get_or self.entry.mappings.now (mapping_width * self.entry.number + 2) 0 }
    {
        get(self.mappings, MAPPING_WIDTH * self.number + 2)
    }

    // A channel's submap; 0 where there is but one.
    pub fn channel_submap(self, channel: usize) -> u8
        requires { channel < 256 }
        ensures { result ≡ get_or self.entry.mappings.now (mapping_width * self.entry.number + (multiplex_place + channel)) 0 - 1 }
    {
        get(
            self.mappings,
            MAPPING_WIDTH * self.number + (MULTIPLEX_PLACE + channel),
        )
        .saturating_sub(1)
    }

    // The number of a submap's floor.
    pub fn submap_floor(self, submap: usize) -> u8
        requires { submap < 16 }
        ensures { result ≡ get_or self.entry.mappings.now (mapping_width * self.entry.number + (submaps_place + 2 * submap)) 0 }
    {
        get(
            self.mappings,
            MAPPING_WIDTH * self.number + (SUBMAPS_PLACE + 2 * submap),
        )
    }

    // The number of a submap's residue.
    pub fn submap_residue(self, submap: usize) -> u8
        requires { submap < 16 }
        ensures { result ≡ get_or self.entry.mappings.now (mapping_width * self.entry.number + (submaps_place + 2 * submap + 1)) 0 }
    {
        get(
            self.mappings,
            MAPPING_WIDTH * self.number + (SUBMAPS_PLACE + 2 * submap + 1),
        )
    }
}
