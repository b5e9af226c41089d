// The tables of a setup kind by kind: the counts, and with them books, floors, residues, mappings, modes.
ghost use Rattle.std.specs.Prelude.{true, ◌↔◌, ◌≡◌, ◌≤◌, get_or};
ghost use Rattle.reading.specs.Counted.{Counted};
ghost use Rattle.residue.specs.Inner.FromTable.{books_of};
ghost use Rattle.book_tables.specs.Inner.Recognised.{BooksRecognised};
ghost use Rattle.floor_tables.specs.Inner.Recognised.{FloorsRecognised};
ghost use Rattle.residue_tables.specs.Inner.Recognised.{ResiduesRecognised};
ghost use Rattle.mapping_tables.specs.Inner.Recognised.{MappingsRecognised};
ghost use Rattle.mode_tables.specs.Inner.Recognised.{ModesRecognised};
ghost use Rattle.setup.specs.Inner.Parts.{Small};
ghost use Rattle.setup_tables.specs.Inner.Recognised.{CountsRecognised, FrontRecognised, BackRecognised, known_by};

use limits::Limits;
use mapping::Known;
use reading::buffers::get;
use setup::lent::LentTables;

// Whether a count is one that a field less one carries, up to `most`.
fn is_count(counts: &[u32], place: usize, most: u32) -> bool
    ensures { (result ≡ true) ↔ Counted most (get_or counts.now place 0) }
{
    let count = get(counts, place);
    if count < 1 {
        return false;
    }
    if most < count {
        return false;
    }
    true
}

// Whether the five counts stand, and zeros behind them.
pub fn are_counts(counts: &[u32]) -> bool
    ensures { (result ≡ true) ↔ CountsRecognised counts.now }
{
    if !is_count(counts, 0, 256) {
        return false;
    }
    if !is_count(counts, 1, 64) {
        return false;
    }
    if !is_count(counts, 2, 64) {
        return false;
    }
    if !is_count(counts, 3, 64) {
        return false;
    }
    if !is_count(counts, 4, 64) {
        return false;
    }
    reading::zeros::zeros(counts, 5)
}

// Each kind's tables with its count.
fn are_books(limits: Limits, tables: LentTables<'_>) -> bool
    requires { Small limits × CountsRecognised tables.counts.now }
    ensures { (result ≡ true) ↔ BooksRecognised limits (get_or tables.entry.counts.now 0 0) tables.entry.books.now
        tables.entry.lengths.now tables.entry.codewords.now tables.entry.multiplicands.now }
{
    book_tables::recognise::are_books(
        get(tables.counts, 0),
        limits,
        tables.books,
        tables.lengths,
        tables.codewords,
        tables.multiplicands,
    )
}

fn are_floors(tables: LentTables<'_>) -> bool
    requires { CountsRecognised tables.counts.now }
    ensures { (result ≡ true) ↔ FloorsRecognised (get_or tables.entry.counts.now 0 0) (get_or tables.entry.counts.now 1 0) tables.entry.floors.now }
{
    let book_count = get(tables.counts, 0);
    let floor_count = get(tables.counts, 1) as usize;
    floor_tables::recognise::are_floors(tables.floors, floor_count, book_count)
}

fn are_residues(tables: LentTables<'_>) -> bool
    requires { CountsRecognised tables.counts.now }
    ensures { (result ≡ true) ↔ ResiduesRecognised (books_of (get_or tables.entry.counts.now 0 0) tables.entry.books.now)
        (get_or tables.entry.counts.now 2 0) tables.entry.residues.now tables.entry.plans.now }
{
    let book_count = get(tables.counts, 0);
    let residue_count = get(tables.counts, 2);
    residue_tables::recognise::are_residues(
        tables.residues,
        tables.plans,
        residue_count,
        book_count,
        tables.books,
    )
}

fn are_mappings(channels: u32, tables: LentTables<'_>) -> bool
    requires { CountsRecognised tables.counts.now × (channels ≤ 255) }
    ensures { (result ≡ true) ↔ MappingsRecognised (known_by channels tables.entry.counts.now) (get_or tables.entry.counts.now 3 0) tables.entry.mappings.now }
{
    let known = Known {
        channels,
        floors: get(tables.counts, 1),
        residues: get(tables.counts, 2),
    };
    let mapping_count = get(tables.counts, 3) as usize;
    mapping_tables::recognise::are_mappings(tables.mappings, mapping_count, known)
}

fn are_modes(tables: LentTables<'_>) -> bool
    requires { CountsRecognised tables.counts.now }
    ensures { (result ≡ true) ↔ ModesRecognised (get_or tables.entry.counts.now 3 0) (get_or tables.entry.counts.now 4 0) tables.entry.modes.now }
{
    let mode_count = get(tables.counts, 4) as usize;
    mode_tables::recognise::are_modes(tables.modes, mode_count, get(tables.counts, 3))
}

// Books and floors.
pub fn are_front(limits: Limits, tables: LentTables<'_>) -> bool
    requires { Small limits × CountsRecognised tables.counts.now }
    ensures { (result ≡ true) ↔ FrontRecognised limits tables.entry.counts.now tables.entry.books.now tables.entry.lengths.now
        tables.entry.codewords.now tables.entry.multiplicands.now tables.entry.floors.now }
{
    if !are_books(limits, tables) {
        return false;
    }
    are_floors(tables)
}

// Residues, mappings and modes.
pub fn are_back(channels: u32, tables: LentTables<'_>) -> bool
    requires { CountsRecognised tables.counts.now × (channels ≤ 255) }
    ensures { (result ≡ true) ↔ BackRecognised channels tables.entry.counts.now tables.entry.books.now tables.entry.residues.now
        tables.entry.plans.now tables.entry.mappings.now tables.entry.modes.now }
{
    if !are_residues(tables) {
        return false;
    }
    if !are_mappings(channels, tables) {
        return false;
    }
    are_modes(tables)
}
