// Mappings: what one is, its rules, how it is read, its row in the tables (003, section 4.2.4, "Mappings"; 01, refusals 9 and 11). Definitions and laws; the
// constants of the layout.
#![tactic(auto)]

// The width of a mapping's row in the table, the table's fixed need, and where its parts begin (specs/Layout.antt).
pub const MAPPING_WIDTH: usize = 804;

pub const MAPPINGS_NEED: usize = 64 * MAPPING_WIDTH;

pub const COUPLINGS_PLACE: usize = 4;

pub const MULTIPLEX_PLACE: usize = 516;

pub const SUBMAPS_PLACE: usize = 772;

// What a mapping is judged against: the identity's channels, and how many floors and residues are set up.
#[derive(Clone, Copy)]
pub struct Known {
    pub channels: u32,
    pub floors: u32,
    pub residues: u32,
}
