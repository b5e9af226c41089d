// The sections of a setup packet: each is a count less one and so many items (003, section 4.2.4). Their tables are lent cleared.
#![tactic(auto)]

pub mod parts;

ghost use Rattle.std.specs.Prelude.{◌≡◌, ◌≤◌, IfOk};
ghost use Rattle.reading.specs.Outcome.{ok, then};
ghost use Rattle.reading.specs.Reader.{many};
ghost use Rattle.reading.specs.Encoding.{Zeros};
ghost use Rattle.bits.specs.Inner.Cursors.{position, stepped};
ghost use Rattle.floor.specs.Layout.{floor_row};
ghost use Rattle.floor.specs.Reading.{floor};
ghost use Rattle.residue.specs.Inner.FromTable.{books_of};
ghost use Rattle.residue.specs.Reading.{residue};
ghost use Rattle.mapping.specs.Layout.{mapping_row};
ghost use Rattle.mapping.specs.Reading.{mapping};
ghost use Rattle.mode.specs.Layout.{mode_row};
ghost use Rattle.mode.specs.Reading.{mode};
ghost use Rattle.setup.specs.Reading.{book_section, section, time_value};
ghost use Rattle.setup.specs.Inner.Parts.{ReadCounted, ClearedBookBuffers};
ghost use Rattle.setup_sections.specs.Inner.Stored.{RowsStoredIn, BooksStoredIn, ResiduesStoredIn};

use bits::Cursor;
use bits::refusal::{Reason, Refusal};
use limits::Limits;
use mapping::Known;

// How many codebooks there are, and the position behind them. Tables come one by one in this crate, as `setup_content::read_content` is lent them.
pub fn read_book_section(
    packet: &[u8],
    from: Cursor,
    limits: Limits,
    books: &mut [u32],
    lengths: &mut [u8],
    codewords: &mut [u32],
    multiplicands: &mut [u16],
) -> Result<(u32, Cursor), Refusal>
    requires { ClearedBookBuffers limits books.old lengths.old codewords.old multiplicands.old }
    ensures read_into { ReadCounted (book_section limits packet.now (position from)) result
        (λ count. BooksStoredIn count books lengths codewords multiplicands) }
    ensures count_bound { IfOk result (λ x. x.0 ≤ 256) }
{
    let (less_one, at_books) = from.field(packet, 8)?;
    let count = less_one + 1;
    let (_totals, next) = book_reading::read::read_books(
        packet,
        at_books,
        count,
        limits,
        books,
        lengths,
        codewords,
        multiplicands,
    )?;
    Ok((count, next))
}

// A time domain transform must be 0.
fn read_time_value(packet: &[u8], from: Cursor) -> Result<Cursor, Refusal>
    ensures { stepped result ≡ then (time_value packet.now (position from)) (λ x. ok x.1) }
{
    let (value, next) = from.field(packet, 16)?;
    if value != 0 {
        return Err(Refusal {
            reason: Reason::NotZero,
            place: from,
        });
    }
    Ok(next)
}

fn read_time_values(packet: &[u8], from: Cursor, time_value_count: u32) -> Result<Cursor, Refusal>
    ensures { stepped result ≡ then (many time_value time_value_count packet.now (position from)) (λ x. ok x.1) }
{
    let mut at = from;
    for _i in 0..time_value_count {
        let next = read_time_value(packet, at)?;
        at = next;
    }
    Ok(at)
}

// The time values are no content: what is left of them is where reading goes on.
pub fn read_time_section(packet: &[u8], from: Cursor) -> Result<Cursor, Refusal>
    ensures { stepped result ≡ then (section time_value packet.now (position from)) (λ x. ok x.1) }
{
    let (less_one, next) = from.field(packet, 6)?;
    read_time_values(packet, next, less_one + 1)
}

// A floor is judged against how many codebooks are set up. A section for floors, residues, mappings and modes each: one for all would be handed the
// reader of the rows, and with it what that reader requires and writes.
pub fn read_floor_section(
    packet: &[u8],
    from: Cursor,
    book_count: u32,
    floors: &mut [u16],
) -> Result<(u32, Cursor), Refusal>
    requires { (book_count ≤ 256) × Zeros floors.old }
    ensures read_into { ReadCounted (section (floor book_count) packet.now (position from)) result (λ count. RowsStoredIn floor_row count floors) }
    ensures count_bound { IfOk result (λ x. x.0 ≤ 64) }
{
    let (less_one, at_floors) = from.field(packet, 6)?;
    let count = less_one + 1;
    let next = floor_reading::read_floors(packet, at_floors, count as usize, book_count, floors)?;
    Ok((count, next))
}

// A residue is judged against the rows of the `book_count` codebooks.
pub fn read_residue_section(
    packet: &[u8],
    from: Cursor,
    book_count: u32,
    books: &[u32],
    residues: &mut [u32],
    plans: &mut [u16],
) -> Result<(u32, Cursor), Refusal>
    requires { Zeros residues.old × Zeros plans.old }
    ensures read_into { ReadCounted (section (residue (books_of book_count books.now)) packet.now (position from)) result
        (λ count. ResiduesStoredIn count residues plans) }
    ensures count_bound { IfOk result (λ x. x.0 ≤ 64) }
{
    let (less_one, at_residues) = from.field(packet, 6)?;
    let count = less_one + 1;
    let next = residue_reading::read_residues(
        packet,
        at_residues,
        book_count,
        books,
        residues,
        plans,
        count as usize,
    )?;
    Ok((count, next))
}

pub fn read_mapping_section(
    packet: &[u8],
    from: Cursor,
    known: Known,
    mappings: &mut [u8],
) -> Result<(u32, Cursor), Refusal>
    requires { (1 ≤ known.channels) × (known.channels ≤ 255) × Zeros mappings.old }
    ensures read_into { ReadCounted (section (mapping known) packet.now (position from)) result (λ count. RowsStoredIn mapping_row count mappings) }
    ensures count_bound { IfOk result (λ x. x.0 ≤ 64) }
{
    let (less_one, at_mappings) = from.field(packet, 6)?;
    let count = less_one + 1;
    let next = mapping_reading::read_mappings(
        packet,
        at_mappings,
        count as usize,
        known,
        mappings,
    )?;
    Ok((count, next))
}

// A mode is judged against how many mappings are set up.
pub fn read_mode_section(
    packet: &[u8],
    from: Cursor,
    mapping_count: u32,
    modes: &mut [u8],
) -> Result<(u32, Cursor), Refusal>
    requires { Zeros modes.old }
    ensures read_into { ReadCounted (section (mode mapping_count) packet.now (position from)) result (λ count. RowsStoredIn mode_row count modes) }
    ensures count_bound { IfOk result (λ x. x.0 ≤ 64) }
{
    let (less_one, at_modes) = from.field(packet, 6)?;
    let count = less_one + 1;
    let next = mode_reading::read_modes(packet, at_modes, count as usize, mapping_count, modes)?;
    Ok((count, next))
}
