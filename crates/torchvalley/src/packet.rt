// The audio packet, by the tables of a setup (003, section 4.3; 01, "Audio order").
ghost use Rattle.std.specs.Prelude.{◌≡◌};
ghost use Rattle.limits.specs.Standard.{standard};
ghost use Rattle.setup.specs.Handed.{held};
ghost use Rattle.audio.specs.Call.{audio_call, room_of, left_of};
ghost use Rattle.audio.specs.Claims.{AudioClaims};

use audio::{AudioAnswer, AudioLeft, Tally};
use identification::Identity;
use setup::lent::LentTables;

// Reads an audio packet, under 01's limits; the tally is brought up to date where it lies. Accepted, the answer's refusal is 0, `curves` has channels times n/2
// bytes and `words` the codewords of the residues, zeros behind them. Else the answer is the number of the refusal alone, both outputs are all zero and the
// tally is as it stood.
pub fn torchvalley_audio(
    tally: &mut Tally,
    identity: Identity,
    tables: LentTables<'_>,
    packet: &[u8],
    curves: &mut [u8],
    words: &mut [u32],
) -> AudioAnswer
    ensures words_after { left_of result tally.new curves.new words.new
        ≡ audio_call standard identity (held tables.entry)
        tally.old packet.now (room_of curves.old words.old) }
    ensures audio_claims { AudioClaims standard identity (held tables.entry)
        tally.old packet.now (room_of curves.old words.old) }
{
    let left = audio_call::audio_by_value(*tally, identity, tables, packet, curves, words);
    *tally = left.tally;
    left.answer
}

// The same with the tally by value: the tally after the packet comes back with the answer.
pub fn torchvalley_audio_by_value(
    tally: Tally,
    identity: Identity,
    tables: LentTables<'_>,
    packet: &[u8],
    curves: &mut [u8],
    words: &mut [u32],
) -> AudioLeft
    ensures words_after { left_of result.answer result.tally curves.new words.new
        ≡ audio_call standard identity (held tables.entry)
        tally packet.now (room_of curves.old words.old) }
    ensures audio_claims { AudioClaims standard identity (held tables.entry)
        tally packet.now (room_of curves.old words.old) }
{
    audio_call::audio_by_value(tally, identity, tables, packet, curves, words)
}
