// An audio packet judged: the head, then room, floors, residues and the tally, in 01's order.
#![tactic(auto)]

ghost use Rattle.std.specs.Prelude.{ℕ, true, ◌≡◌, IfErr};
ghost use Rattle.bits.specs.Inner.Cursors.{position};
ghost use Rattle.setup.specs.Handed.{held};
ghost use Rattle.setup.specs.Inner.Decode.{decode_setup};
ghost use Rattle.audio.specs.Tally.{counted};
ghost use Rattle.audio.specs.Call.{accepted, room_of};
ghost use Rattle.audio_judge.specs.Inner.Ready.{Ready};
ghost use Rattle.audio_judge.specs.Inner.Reasons.{HasReason};
ghost use Rattle.audio_settle.specs.Inner.Judged.{numbered, was_written, finished_by, after_head, HeadIs, JudgedIs};

use audio::{Head, Tally};
use audio_body::read_body;
use audio_settle::size::curve_bytes;
use audio_settle::{Judged, Rejected};
use bits::Cursor;
use bits::refusal::Reason;
use codeword_list::Stop;
use identification::Identity;
use reading::buffers::get;
use setup::lent::LentTables;

// The samples of a packet that was read: the last thing that is judged (01, refusal 19).
fn finish(tally: Tally, head: Head, used: [u8; 255], words: usize) -> Result<Judged, Rejected>
    ensures finished { ((stop : ℕ) → numbered result ≡ finished_by (counted tally head.blocksize stop) head used words) × (was_written result ≡ true) }
    ensures reason { IfErr result (λ x. HasReason x.refusal) }
{
    match audio_tally::count(tally, head.blocksize) {
        Some((after, samples)) => Ok(Judged {
            head,
            used,
            words,
            samples,
            tally: after,
        }),
        None => Err(Rejected {
            refusal: Reason::Samples.number() as u32,
            written: true,
        }),
    }
}

// What follows a head that was read: room for the curves, the body, room for the codewords, the samples.
fn judge_body(
    tally: Tally,
    identity: Identity,
    head: Head,
    from: Cursor,
    tables: LentTables<'_>,
    packet: &[u8],
    curves: &mut [u8],
    words: &mut [u32],
) -> Result<Judged, Rejected>
    requires { Ready identity (held tables) × HeadIs identity (decode_setup (held tables)) packet.now head (position from) }
    ensures judged { JudgedIs identity.channels (decode_setup (held tables.entry))
        (after_head identity (decode_setup (held tables.entry)) tally packet.now head (position from) (room_of curves.old words.old))
        result curves.old curves.new words.old words.new }
    ensures reason { IfErr result (λ x. HasReason x.refusal) }
{
    if curves.len() < curve_bytes(identity.channels, head.blocksize) {
        return Err(Rejected {
            refusal: Reason::Room.number() as u32, // for the curves
            written: false,
        });
    }
    let mapping = mode_row::mapping(tables.modes, head.mode as usize) as usize;
    let half = head.blocksize / 2;
    let body = read_body(
        packet,
        from,
        identity.channels,
        mapping,
        half,
        tables,
        curves,
        words,
    );
    let used = body.used;
    match body.words {
        // Not one arm with an or: its proof would name what the source does not (tried).
        Ok(progress) => finish(tally, head, used, progress.count),
        Err(Stop::Cut(progress)) => finish(tally, head, used, progress.count),
        Err(Stop::Full) => Err(Rejected {
            refusal: Reason::Room.number() as u32, // for the codewords
            written: true, // the curves, and the codewords that have room
        }),
    }
}

// A whole packet, by an identity and tables that are ready: 18 for the tally, the head (1, 15, 16), then what follows it.
pub fn judge(
    tally: Tally,
    identity: Identity,
    tables: LentTables<'_>,
    packet: &[u8],
    curves: &mut [u8],
    words: &mut [u32],
) -> Result<Judged, Rejected>
    requires { Ready identity (held tables) }
    ensures judged { JudgedIs identity.channels (decode_setup (held tables.entry))
        (accepted identity tally (room_of curves.old words.old) packet.now (decode_setup (held tables.entry)))
        result curves.old curves.new words.old words.new }
    ensures reason { IfErr result (λ x. HasReason x.refusal) }
{
    if !audio_tally::is_sound(identity, tally) {
        return Err(Rejected {
            refusal: Reason::Unsound.number() as u32,
            written: false,
        });
    }
    let mode_count = get(tables.counts, 4);
    match audio_head::read_head(packet, identity, mode_count, tables.modes) {
        Ok((head, from)) => judge_body(tally, identity, head, from, tables, packet, curves, words),
        Err(refusal) => Err(Rejected {
            refusal: refusal.reason.number() as u32,
            written: false,
        }),
    }
}
