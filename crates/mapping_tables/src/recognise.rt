// Whether a table that is handed in is the writing-out of some mappings: row by row, each row part by part.
ghost use Rattle.std.specs.Prelude.{◌+◌, ◌*◌, ◌≤◌, ◌<◌, true, [], ◌∷◌, ◌↔◌, ◌≡◌, length};
ghost use Rattle.reading.specs.Encoding.{RowOf, Encodes};
ghost use Rattle.mapping.specs.Inner.Decode.{coupling_of, submap_of};
ghost use Rattle.mapping.specs.Layout.{coupling_row, multiplex_row, submap_row, mapping_row, mapping_width};
ghost use Rattle.mapping_tables.specs.Inner.Recognised.{MappingsRecognised, MultiplexCount};
ghost use Rattle.mapping.specs.Rules.{Coupling11};
ghost use Rattle.mapping.specs.Inner.Valid.{ValidMultiplex, ValidSubmap, ValidMapping};

use mapping::{COUPLINGS_PLACE, Known, MAPPING_WIDTH, MULTIPLEX_PLACE, SUBMAPS_PLACE};

// Whether the two numbers are a coupling step of so many channels.
fn is_coupling(magnitude: u8, angle: u8, channels: u32) -> bool
    ensures { (result ≡ true) ↔ Coupling11 channels (coupling_of magnitude angle) }
{
    (magnitude as u32) < channels && (angle as u32) < channels && angle != magnitude
}

// Kept apart from `are_submaps`, which differs in the test alone: handed in, the test would need a contract of its own, and a trait for what it tests.
fn are_couplings(part: &[u8], count: usize, channels: u32) -> bool
    requires { count ≤ 256 }
    ensures { (result ≡ true) ↔ Encodes coupling_row (Coupling11 channels) count part.now }
{
    if part.len() < 2 * count {
        return false;
    }
    for i in 0..count {
        if !is_coupling(part[2 * i], part[2 * i + 1], channels) {
            return false;
        }
    }
    reading::zeros::zeros(part, 2 * count)
}

// Whether the number is a channel's submap, plus one.
fn is_multiplex(number: u8, submaps: u8) -> bool
    ensures { (result ≡ true) ↔ RowOf multiplex_row (ValidMultiplex submaps) (number ∷ []) }
{
    number != 0 && number <= submaps
}

fn are_multiplexes(part: &[u8], count: usize, submaps: u8) -> bool
    requires { count ≤ 256 }
    ensures { (result ≡ true) ↔ Encodes multiplex_row (ValidMultiplex submaps) count part.now }
{
    if part.len() < count {
        return false;
    }
    for number in &part[..count] {
        if !is_multiplex(*number, submaps) {
            return false;
        }
    }
    reading::zeros::zeros(part, count)
}

// Whether the two numbers are a submap's floor and residue, both set up.
fn is_submap(floor: u8, residue: u8, known: Known) -> bool
    ensures { (result ≡ true) ↔ ValidSubmap known (submap_of floor residue) }
{
    (floor as u32) < known.floors && (residue as u32) < known.residues
}

fn are_submaps(part: &[u8], count: usize, known: Known) -> bool
    requires { count ≤ 16 }
    ensures { (result ≡ true) ↔ Encodes submap_row (ValidSubmap known) count part.now }
{
    if part.len() < 2 * count {
        return false;
    }
    for i in 0..count {
        if !is_submap(part[2 * i], part[2 * i + 1], known) {
            return false;
        }
    }
    reading::zeros::zeros(part, 2 * count)
}

// How many multiplex numbers there are: none where there is one submap.
fn multiplex_count(submaps: u8, channels: u32) -> usize
    ensures { MultiplexCount submaps channels result }
{
    if submaps <= 1 { 0 } else { channels as usize }
}

// Whether the numbers are the row of a mapping that meets every rule.
fn is_mapping(row: &[u8], known: Known) -> bool
    requires { (length row.now ≡ mapping_width) × (known.channels ≤ 255) }
    ensures { (result ≡ true) ↔ RowOf mapping_row (ValidMapping known) row.now }
{
    let steps = mapping_row::two_places(row[0], row[1]);
    let submaps = row[2];
    if steps > 256 || submaps < 1 || submaps > 16 || row[3] != 0 {
        return false;
    }
    are_couplings(
        &row[COUPLINGS_PLACE..MULTIPLEX_PLACE],
        steps,
        known.channels,
    ) && are_multiplexes(
        &row[MULTIPLEX_PLACE..SUBMAPS_PLACE],
        multiplex_count(submaps, known.channels),
        submaps,
    ) && are_submaps(&row[SUBMAPS_PLACE..MAPPING_WIDTH], submaps as usize, known)
}

// Whether the table is the writing-out of `count` mappings, zeros behind them.
pub fn are_mappings(mappings: &[u8], count: usize, known: Known) -> bool
    requires { (count ≤ 64) × (known.channels ≤ 255) }
    ensures { (result ≡ true) ↔ MappingsRecognised known count mappings.now }
{
    if mappings.len() < MAPPING_WIDTH * count {
        return false;
    }
    for i in 0..count {
        if !is_mapping(
            &mappings[MAPPING_WIDTH * i..MAPPING_WIDTH * i + MAPPING_WIDTH],
            known,
        ) {
            return false;
        }
    }
    reading::zeros::zeros(mappings, MAPPING_WIDTH * count)
}
