// The audio packet, exported.
ghost use Rattle.std.specs.Prelude.{◌≡◌};
ghost use Rattle.limits.specs.Standard.{standard};
ghost use Rattle.setup.specs.Handed.{shared};
ghost use Rattle.audio.specs.Call.{audio_call, room_of, left_of};
ghost use Rattle.audio.specs.Claims.{AudioClaims};

use audio::{AudioAnswer, AudioLeft, Tally};
use identification::Identity;
use torchvalley::LentTables;

// Reads an audio packet, under 01's limits; the tally is brought up to date where it lies. Accepted, the answer's refusal is 0, `curves` has channels times n/2
// bytes and `words` the codewords of the residues, zeros behind them. Else the answer is the number of the refusal alone, both outputs are all zero and the
// tally is as it stood.
#[unsafe(no_mangle)]
pub extern "C" fn torchvalley_audio(
    tally: &mut Tally,
    identity: Identity,
    counts: &[u32],
    books: &[u32],
    lengths: &[u8],
    codewords: &[u32],
    multiplicands: &[u16],
    floors: &[u16],
    residues: &[u32],
    plans: &[u16],
    mappings: &[u8],
    modes: &[u8],
    packet: &[u8],
    curves: &mut [u8],
    words: &mut [u32],
) -> AudioAnswer
    ensures words_after { left_of result tally.new curves.new words.new
        ≡ audio_call standard identity (shared counts books lengths codewords multiplicands floors residues plans mappings modes)
        tally.old packet.now (room_of curves.old words.old) }
    ensures audio_claims { AudioClaims standard identity (shared counts books lengths codewords multiplicands floors residues plans mappings modes)
        tally.old packet.now (room_of curves.old words.old) }
{
    let tables = LentTables {
        counts,
        books,
        lengths,
        codewords,
        multiplicands,
        floors,
        residues,
        plans,
        mappings,
        modes,
    };
    torchvalley::packet::torchvalley_audio(tally, identity, tables, packet, curves, words)
}

// The same with the tally by value: the tally after the packet comes back with the answer.
#[unsafe(no_mangle)]
pub extern "C" fn torchvalley_audio_by_value(
    tally: Tally,
    identity: Identity,
    counts: &[u32],
    books: &[u32],
    lengths: &[u8],
    codewords: &[u32],
    multiplicands: &[u16],
    floors: &[u16],
    residues: &[u32],
    plans: &[u16],
    mappings: &[u8],
    modes: &[u8],
    packet: &[u8],
    curves: &mut [u8],
    words: &mut [u32],
) -> AudioLeft
    ensures words_after { left_of result.answer result.tally curves.new words.new
        ≡ audio_call standard identity (shared counts books lengths codewords multiplicands floors residues plans mappings modes)
        tally packet.now (room_of curves.old words.old) }
    ensures audio_claims { AudioClaims standard identity (shared counts books lengths codewords multiplicands floors residues plans mappings modes)
        tally packet.now (room_of curves.old words.old) }
{
    let tables = LentTables {
        counts,
        books,
        lengths,
        codewords,
        multiplicands,
        floors,
        residues,
        plans,
        mappings,
        modes,
    };
    torchvalley::packet::torchvalley_audio_by_value(tally, identity, tables, packet, curves, words)
}
