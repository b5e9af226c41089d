// The sections put together: books and time values; floors and residues; mappings and modes; all that follows the books.
ghost use Rattle.std.specs.Prelude.{◌≡◌, ◌≤◌, IfOk};
ghost use Rattle.reading.specs.Encoding.{Zeros};
ghost use Rattle.bits.specs.Inner.Cursors.{position};
ghost use Rattle.residue.specs.Inner.FromTable.{books_of};
ghost use Rattle.setup.specs.Inner.Parts.{ReadCounted, ClearedBookBuffers, book_part, floor_part, mapping_part, after_books};
ghost use Rattle.setup_sections.specs.Inner.Stored.{BooksStoredIn, FloorsStoredIn, MappingsStoredIn, AfterBooksStoredIn};

use crate::{
    read_book_section, read_floor_section, read_mapping_section, read_mode_section,
    read_residue_section, read_time_section,
};
use bits::Cursor;
use bits::refusal::Refusal;
use limits::Limits;
use mapping::Known;

// The books, and behind them the time values: how many books there are, and where reading goes on.
pub fn read_book_part(
    packet: &[u8],
    from: Cursor,
    limits: Limits,
    books: &mut [u32],
    lengths: &mut [u8],
    codewords: &mut [u32],
    multiplicands: &mut [u16],
) -> Result<(u32, Cursor), Refusal>
    requires { ClearedBookBuffers limits books.old lengths.old codewords.old multiplicands.old }
    ensures read_into { ReadCounted (book_part limits packet.now (position from)) result
        (λ count. BooksStoredIn count books lengths codewords multiplicands) }
    ensures count_bound { IfOk result (λ x. x.0 ≤ 256) }
{
    let (count, at_times) = read_book_section(
        packet,
        from,
        limits,
        books,
        lengths,
        codewords,
        multiplicands,
    )?;
    let next = read_time_section(packet, at_times)?;
    Ok((count, next))
}

// How many floors and residues there are.
#[derive(Clone, Copy)]
pub struct FloorPart {
    pub floors: u32,
    pub residues: u32,
}

// Floors and residues, behind `book_count` codebooks.
pub fn read_floor_part(
    packet: &[u8],
    from: Cursor,
    book_count: u32,
    books: &[u32],
    floors: &mut [u16],
    residues: &mut [u32],
    plans: &mut [u16],
) -> Result<(FloorPart, Cursor), Refusal>
    requires { (book_count ≤ 256) × Zeros floors.old × Zeros residues.old × Zeros plans.old }
    ensures { ReadCounted (floor_part (books_of book_count books.now) packet.now (position from)) result
        (λ part. FloorsStoredIn part.floors part.residues floors residues plans) }
{
    let (floor_count, at_residues) = read_floor_section(packet, from, book_count, floors)?;
    let (residue_count, next) = read_residue_section(
        packet,
        at_residues,
        book_count,
        books,
        residues,
        plans,
    )?;
    let part = FloorPart {
        floors: floor_count,
        residues: residue_count,
    };
    Ok((part, next))
}

// How many mappings and modes there are.
#[derive(Clone, Copy)]
pub struct MappingPart {
    pub mappings: u32,
    pub modes: u32,
}

pub fn read_mapping_part(
    packet: &[u8],
    from: Cursor,
    known: Known,
    mappings: &mut [u8],
    modes: &mut [u8],
) -> Result<(MappingPart, Cursor), Refusal>
    requires { (1 ≤ known.channels) × (known.channels ≤ 255) × Zeros mappings.old × Zeros modes.old }
    ensures { ReadCounted (mapping_part known packet.now (position from)) result
        (λ part. MappingsStoredIn part.mappings part.modes mappings modes) }
{
    let (mapping_count, at_modes) = read_mapping_section(packet, from, known, mappings)?;
    let (mode_count, next) = read_mode_section(packet, at_modes, mapping_count, modes)?;
    let part = MappingPart {
        mappings: mapping_count,
        modes: mode_count,
    };
    Ok((part, next))
}

// How many of each follow the books.
#[derive(Clone, Copy)]
pub struct After {
    pub floors: u32,
    pub residues: u32,
    pub mappings: u32,
    pub modes: u32,
}

// Floors, residues, mappings and modes, behind `book_count` codebooks.
pub fn read_after_books(
    packet: &[u8],
    from: Cursor,
    channels: u32,
    book_count: u32,
    books: &[u32],
    floors: &mut [u16],
    residues: &mut [u32],
    plans: &mut [u16],
    mappings: &mut [u8],
    modes: &mut [u8],
) -> Result<(After, Cursor), Refusal>
    requires { (1 ≤ channels) × (channels ≤ 255) × (book_count ≤ 256) × Zeros floors.old × Zeros residues.old × Zeros plans.old
        × Zeros mappings.old × Zeros modes.old }
    ensures { ReadCounted (after_books channels (books_of book_count books.now) packet.now (position from)) result
        (λ after. AfterBooksStoredIn after.floors after.residues after.mappings after.modes floors residues plans mappings modes) }
{
    let (first, at_mappings) = read_floor_part(
        packet, from, book_count, books, floors, residues, plans,
    )?;
    let known = Known {
        channels,
        floors: first.floors,
        residues: first.residues,
    };
    let (second, next) = read_mapping_part(packet, at_mappings, known, mappings, modes)?;
    let after = After {
        floors: first.floors,
        residues: first.residues,
        mappings: second.mappings,
        modes: second.modes,
    };
    Ok((after, next))
}
