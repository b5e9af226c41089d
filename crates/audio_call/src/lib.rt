// THE AUDIO CALL, twice: for tables that are known to be sound, as a caller has them from its own setup; and for any tables, which are judged first.
#![tactic(auto)]

#[cfg(test)]
mod cases;

ghost use Rattle.std.specs.Prelude.{◌≤◌, ◌≡◌};
ghost use Rattle.limits.specs.Standard.{standard};
ghost use Rattle.setup.specs.Handed.{held};
ghost use Rattle.setup.specs.Inner.Decode.{decode_setup};
ghost use Rattle.setup.specs.Inner.Parts.{Small};
ghost use Rattle.audio.specs.Call.{audio_by, audio_call, room_of, left_of};
ghost use Rattle.audio_judge.specs.Inner.Ready.{Ready};
ghost use Rattle.audio_settle.specs.Inner.Judged.{ZeroFrom};

use audio::{AudioLeft, Tally};
use bits::refusal::Reason;
use identification::Identity;
use limits::Limits;
use setup::lent::LentTables;

// THE INNER DOOR, for a caller whose tables its own setup call left: nothing is judged again. Only the first `curves_end` curve bytes and `words_end`
// places of the list may hold something: that is what the packet before left, and only that is cleared. The ends stand beside the slices: the whole of an
// output may be written.
pub fn read_packet(
    tally: Tally,
    identity: Identity,
    tables: LentTables<'_>,
    packet: &[u8],
    curves: &mut [u8],
    words: &mut [u32],
    curves_end: usize,
    words_end: usize,
) -> AudioLeft
    requires { Ready identity (held tables) × ZeroFrom curves_end curves.old × ZeroFrom words_end words.old }
    ensures { left_of result.answer result.tally curves.new words.new
        ≡ audio_by (decode_setup (held tables.entry)) identity tally packet.now (room_of curves.old words.old) }
{
    let judged = audio_judge::judge(tally, identity, tables, packet, curves, words);
    audio_settle::settle(
        identity, tally, judged, curves, words, curves_end, words_end,
    )
}

// THE OUTER DOOR, with the tally by value: identity and tables are judged first.
pub fn read_audio(
    tally: Tally,
    identity: Identity,
    limits: Limits,
    tables: LentTables<'_>,
    packet: &[u8],
    curves: &mut [u8],
    words: &mut [u32],
) -> AudioLeft
    requires { Small limits × (limits.book_entries ≤ 65536) }
    ensures { left_of result.answer result.tally curves.new words.new
        ≡ audio_call limits identity (held tables.entry) tally packet.now (room_of curves.old words.old) }
{
    if !setup_codeword::are_sound(identity, limits, tables) {
        let refusal = Reason::Unsound.number() as u32;
        return audio_settle::refuse(refusal, tally, curves, words);
    }
    let curves_end = curves.len();
    let words_end = words.len();
    read_packet(
        tally, identity, tables, packet, curves, words, curves_end, words_end,
    )
}

// The same under 01's limits, as the front door has it.
pub fn audio_by_value(
    tally: Tally,
    identity: Identity,
    tables: LentTables<'_>,
    packet: &[u8],
    curves: &mut [u8],
    words: &mut [u32],
) -> AudioLeft
    ensures { left_of result.answer result.tally curves.new words.new
        ≡ audio_call standard identity (held tables.entry) tally packet.now (room_of curves.old words.old) }
{
    let limits = Limits::standard();
    read_audio(tally, identity, limits, tables, packet, curves, words)
}
