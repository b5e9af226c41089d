// One codeword, by a book of tables that anyone hands in (01, "What the reader takes and gives"; "Bits and books"); and demand 3, whole.
// Who has the tables as an accepted setup left them reads by book_codeword::read_entry, which judges nothing again.
#![tactic(auto)]

ghost use Rattle.std.specs.Prelude.{◌≡◌, ltb, get_or};
ghost use Rattle.reading.specs.Outcome.{refusal, bad};
ghost use Rattle.bits.specs.Inner.Cursors.{position, outcome};
ghost use Rattle.bits.specs.Reasons.{number};
ghost use Rattle.setup.specs.Handed.{held};
ghost use Rattle.setup.specs.Inner.Parts.{Small};
ghost use Rattle.setup.specs.SoundTest.{sound_test, Tested};
ghost use Rattle.setup_codeword.specs.Call.{codeword_call};
ghost use Rattle.setup_codeword.specs.Demand3.{Demand3};

use bits::Cursor;
use bits::refusal::{Reason, Refusal};
use book_codeword::Codebooks;
use identification::Identity;
use limits::Limits;
use reading::buffers::get;
use setup::lent::LentTables;

// A fault that no field has: its place is the first bit of the packet. Crate setup_call has the same for an answer without a
// value: a generic one's contract could name neither `outcome` nor `stepped`.
fn refused(reason: Reason) -> Result<(u32, Cursor), Refusal>
    ensures { outcome result ≡ bad (refusal (number reason) 0) }
{
    let place = Cursor::start();
    Err(Refusal { reason, place })
}

// Whether book number `book` is one of those that the tables count (01, refusal 11).
fn is_set_up(counts: &[u32], book: u32) -> bool
    ensures { result ≡ ltb book (get_or counts.now 0 0) }
{
    book < get(counts, 0)
}

// Whether identity and tables are sound (01, refusal 18).
pub fn are_sound(identity: Identity, limits: Limits, tables: LentTables<'_>) -> bool
    requires { Small limits }
    ensures value { result ≡ sound_test limits identity (held tables.entry) }
    ensures tested { Tested limits identity (held tables.entry) }
{
    if !identification::sound::is_sound(identity, limits) {
        return false;
    }
    setup_tables::sound::are_sound(limits, identity.channels, tables)
}

// The entry of book number `book` whose codeword stands at the cursor, with the position behind it; or the refusal.
pub fn read_codeword(
    identity: Identity,
    limits: Limits,
    tables: LentTables<'_>,
    book: u32,
    packet: &[u8],
    from: Cursor,
) -> Result<(u32, Cursor), Refusal>
    requires { Small limits }
    ensures result_value { outcome result
        ≡ codeword_call limits identity (held tables.entry) book packet.now (position from) }
    ensures demand3 { Demand3 limits }
{
    let sound = are_sound(identity, limits, tables);
    let set_up = is_set_up(tables.counts, book);
    if !sound {
        return refused(Reason::Unsound);
    }
    if !set_up {
        return refused(Reason::NotSetUp);
    }
    let codebooks = Codebooks {
        books: tables.books,
        lengths: tables.lengths,
        codewords: tables.codewords,
    };
    book_codeword::read_entry(packet, from, book, codebooks)
}
