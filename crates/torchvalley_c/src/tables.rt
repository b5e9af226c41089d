// The setup packet and what its tables give, exported.
ghost use Rattle.std.specs.Prelude.{◌≡◌, ◌+◌, ◌*◌, ◌/◌};
ghost use Rattle.setup.specs.Handed.{handed, shared, left_in};
ghost use Rattle.setup.specs.SoundTest.{sound_test, Tested};
ghost use Rattle.setup.specs.Call.{left, setup_call};
ghost use Rattle.setup.specs.Accepted.{AcceptedSound};
ghost use Rattle.setup_codeword.specs.Call.{codeword_call};
ghost use Rattle.setup_codeword.specs.Demand3.{Demand3};
ghost use Rattle.limits.specs.Standard.{standard};
ghost use Rattle.torchvalley.specs.Codeword.{codeword_answer};

use identification::Identity;
use torchvalley::tables::CodewordAnswer;
use torchvalley::{LentTables, LentTablesMut};

// Reads a setup packet into the lent tables, under 01's limits. 0 where it is accepted: the tables hold its content, and zeros behind it. Else the
// number of the refusal, and every table is all zero.
#[unsafe(no_mangle)]
pub extern "C" fn torchvalley_setup(
    identity: Identity,
    packet: &[u8],
    counts: &mut [u32],
    books: &mut [u32],
    lengths: &mut [u8],
    codewords: &mut [u32],
    multiplicands: &mut [u16],
    floors: &mut [u16],
    residues: &mut [u32],
    plans: &mut [u16],
    mappings: &mut [u8],
    modes: &mut [u8],
) -> u32
    ensures answer { left result (left_in counts books lengths codewords multiplicands floors residues plans mappings modes)
        ≡ setup_call standard identity packet.now (handed counts books lengths codewords multiplicands floors residues plans mappings modes) }
    ensures accepted_sound { AcceptedSound standard identity packet.now
        (handed counts books lengths codewords multiplicands floors residues plans mappings modes) }
{
    let mut tables = LentTablesMut {
        counts,
        books,
        lengths,
        codewords,
        multiplicands,
        floors,
        residues,
        plans,
        mappings,
        modes,
    };
    torchvalley::tables::torchvalley_setup(identity, packet, &mut tables)
}

// Whether the identity is sound, and the tables are the writing-out of some setup that meets every rule for it.
#[unsafe(no_mangle)]
pub extern "C" fn torchvalley_setup_sound(
    identity: Identity,
    counts: &[u32],
    books: &[u32],
    lengths: &[u8],
    codewords: &[u32],
    multiplicands: &[u16],
    floors: &[u16],
    residues: &[u32],
    plans: &[u16],
    mappings: &[u8],
    modes: &[u8],
) -> bool
    ensures value { result ≡ sound_test standard identity (shared counts books lengths codewords multiplicands floors residues plans mappings modes) }
    ensures tested { Tested standard identity (shared counts books lengths codewords multiplicands floors residues plans mappings modes) }
{
    let tables = LentTables {
        counts,
        books,
        lengths,
        codewords,
        multiplicands,
        floors,
        residues,
        plans,
        mappings,
        modes,
    };
    torchvalley::tables::torchvalley_setup_sound(identity, tables)
}

// Reads one codeword of a book of the tables, at a bit of a byte of the packet.
#[unsafe(no_mangle)]
pub extern "C" fn torchvalley_codeword(
    identity: Identity,
    counts: &[u32],
    books: &[u32],
    lengths: &[u8],
    codewords: &[u32],
    multiplicands: &[u16],
    floors: &[u16],
    residues: &[u32],
    plans: &[u16],
    mappings: &[u8],
    modes: &[u8],
    book: u32,
    packet: &[u8],
    byte: usize,
    bit: u8,
) -> CodewordAnswer
    ensures value { result ≡ codeword_answer
        (codeword_call standard identity (shared counts books lengths codewords multiplicands floors residues plans mappings modes)
        book packet.now (8 * byte + bit)) }
    ensures demand3 { Demand3 standard }
{
    let tables = LentTables {
        counts,
        books,
        lengths,
        codewords,
        multiplicands,
        floors,
        residues,
        plans,
        mappings,
        modes,
    };
    torchvalley::tables::torchvalley_codeword(identity, tables, book, packet, byte, bit)
}
