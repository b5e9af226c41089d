// All ten tables of a setup: whether they have room, clearing them, and how a call leaves them.
#![tactic(auto)]

ghost use Rattle.std.specs.Prelude.{◌≡◌};
ghost use Rattle.setup.specs.Layout.{has_room, cleared};
ghost use Rattle.setup.specs.Handed.{held, held_mut, StaysLent};
ghost use Rattle.setup.specs.Call.{left};
ghost use Rattle.setup_buffers.specs.Inner.Blank.{LeftBlank};
ghost use Rattle.setup_buffers.specs.Inner.Settled.{settled};

use bits::Cursor;
use limits::Limits;
use reading::buffers;
use setup::lent::{LentTables, LentTablesMut};

// Whether each table has its fixed need (docs/TABLES.md).
#[tactic(auto, unfolding(setup::specs::Layout::has_room))]
pub fn have_room(limits: Limits, tables: LentTables<'_>) -> bool
    ensures { result ≡ has_room limits (held tables.entry) }
{
    5 <= tables.counts.len()
        && book::NEED <= tables.books.len()
        && limits.entries as usize <= tables.lengths.len()
        && limits.entries as usize <= tables.codewords.len()
        && limits.multiplicands as usize <= tables.multiplicands.len()
        && floor::FLOORS_NEED <= tables.floors.len()
        && residue::RESIDUES_NEED <= tables.residues.len()
        && residue::PLANS_NEED <= tables.plans.len()
        && mapping::MAPPINGS_NEED <= tables.mappings.len()
        && mode::MODES_NEED <= tables.modes.len()
}

// The four tables of the books. One by one, here and in `clear_after`, as `setup_content::read_content` is lent them.
pub fn clear_books(
    books: &mut [u32],
    lengths: &mut [u8],
    codewords: &mut [u32],
    multiplicands: &mut [u16],
)
    ensures { LeftBlank books × LeftBlank lengths × LeftBlank codewords × LeftBlank multiplicands }
{
    buffers::clear(books);
    buffers::clear(lengths);
    buffers::clear(codewords);
    buffers::clear(multiplicands);
}

// The tables of all that follows the books.
pub fn clear_after(
    floors: &mut [u16],
    residues: &mut [u32],
    plans: &mut [u16],
    mappings: &mut [u8],
    modes: &mut [u8],
)
    ensures { LeftBlank floors × LeftBlank residues × LeftBlank plans × LeftBlank mappings × LeftBlank modes }
{
    buffers::clear(floors);
    buffers::clear(residues);
    buffers::clear(plans);
    buffers::clear(mappings);
    buffers::clear(modes);
}

// All ten.
pub fn clear(tables: &mut LentTablesMut<'_>)
    ensures after { held_mut tables.new ≡ cleared (held_mut tables.old) }
    ensures lent { StaysLent tables.old tables.new }
{
    buffers::clear(tables.counts);
    clear_books(
        tables.books,
        tables.lengths,
        tables.codewords,
        tables.multiplicands,
    );
    clear_after(
        tables.floors,
        tables.residues,
        tables.plans,
        tables.mappings,
        tables.modes,
    );
}

// 0 where the packet was read through: the tables stay as they are. Else the number of the refusal, as C is answered, and every table
// is all zero. Any number is taken, not 01's alone: a caller may have its own.
pub fn settle(answer: Result<Cursor, u8>, tables: &mut LentTablesMut<'_>) -> u32
    ensures left { left result (held_mut tables.new) ≡ settled answer (held_mut tables.old) }
    ensures lent { StaysLent tables.old tables.new }
{
    match answer {
        Ok(_) => 0,
        Err(number) => {
            clear(tables);
            number as u32
        }
    }
}
