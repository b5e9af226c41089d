// The setup packet and what its tables give (003, section 4.2.4; 01). The tables lie in ten lists, which docs/TABLES.md draws.
ghost use Rattle.std.specs.Prelude.{◌≡◌, ◌+◌, ◌*◌, ◌/◌, ◌%◌, ◌≤◌};
ghost use Rattle.setup.specs.Handed.{held, held_mut, StaysLent};
ghost use Rattle.setup.specs.SoundTest.{sound_test, Tested};
ghost use Rattle.setup.specs.Call.{left, setup_call};
ghost use Rattle.setup.specs.Accepted.{AcceptedSound};
ghost use Rattle.setup_codeword.specs.Call.{codeword_call};
ghost use Rattle.setup_codeword.specs.Demand3.{Demand3};
ghost use Rattle.limits.specs.Standard.{standard};
ghost use Rattle.bits.specs.Inner.Cursors.{position, outcome};
ghost use Rattle.torchvalley.specs.Codeword.{codeword_answer, Addressable};

use bits::Cursor;
use bits::refusal::Refusal;
use identification::Identity;
use limits::Limits;
use setup::lent::{LentTables, LentTablesMut};

// Reads a setup packet into the lent tables, under 01's limits. 0 where it is accepted: the tables hold its content, and zeros behind it. Else the
// number of the refusal, and every table is all zero.
pub fn torchvalley_setup(identity: Identity, packet: &[u8], tables: &mut LentTablesMut<'_>) -> u32
    ensures answer { left result (held_mut tables.new)
        ≡ setup_call standard identity packet.now (held_mut tables.old) }
    ensures accepted_sound { AcceptedSound standard identity packet.now (held_mut tables.old) }
    ensures lent { StaysLent tables.old tables.new }
{
    setup_call::read_setup(packet, identity, Limits::standard(), tables)
}

// Whether the identity is sound, and the tables are the writing-out of some setup that meets every rule for it.
pub fn torchvalley_setup_sound(identity: Identity, tables: LentTables<'_>) -> bool
    ensures value { result ≡ sound_test standard identity (held tables.entry) }
    ensures tested { Tested standard identity (held tables.entry) }
{
    setup_codeword::are_sound(identity, Limits::standard(), tables)
}

// What reading one codeword comes to. No Result: it is laid out for C.
#[repr(C)]
#[derive(Clone, Copy)]
pub struct CodewordAnswer {
    // 0 where a codeword was read, else 01's number of the refusal; all else is zero then.
    pub refusal: u32,
    // The entry that was read.
    pub entry: u32,
    // The place behind its codeword: the byte, and the bit in it, 0 to 7.
    pub byte: usize,
    pub bit: u8,
}

// The byte that a place lies in: a bit above 7 counts on into the next ones.
fn byte_of(place: Cursor) -> usize
    requires { position place ≤ 8 * 18446744073709551615 }
    ensures { result ≡ position place / 8 }
{
    place.byte + (place.bit / 8) as usize
}

// And its bit there.
fn bit_of(place: Cursor) -> u8
    ensures { result ≡ position place % 8 }
{
    place.bit % 8
}

// 0, the entry and the place behind its codeword; or the number of the refusal alone.
fn codeword_answer(read: Result<(u32, Cursor), Refusal>) -> CodewordAnswer
    requires { Addressable (outcome read) }
    ensures { result ≡ codeword_answer (outcome read) }
{
    match read {
        Err(refusal) => CodewordAnswer {
            refusal: refusal.reason.number() as u32,
            entry: 0,
            byte: 0,
            bit: 0,
        },
        Ok((entry, next)) => CodewordAnswer {
            refusal: 0,
            entry,
            byte: byte_of(next),
            bit: bit_of(next),
        },
    }
}

// Reads one codeword of a book of the tables, at a bit of a byte of the packet.
pub fn torchvalley_codeword(
    identity: Identity,
    tables: LentTables<'_>,
    book: u32,
    packet: &[u8],
    byte: usize,
    bit: u8,
) -> CodewordAnswer
    ensures value { result ≡ codeword_answer
        (codeword_call standard identity (held tables.entry)
        book packet.now (8 * byte + bit)) }
    ensures demand3 { Demand3 standard }
{
    let read = setup_codeword::read_codeword(
        identity,
        Limits::standard(),
        tables,
        book,
        packet,
        Cursor { byte, bit },
    );
    codeword_answer(read)
}
