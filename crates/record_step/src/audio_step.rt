// AN AUDIO RECORD: a good packet brings the tally up to date; without an identity and tables it is 18 (01, the tool).
ghost use Rattle.std.specs.Prelude.{◌≡◌, ◌≤◌};
ghost use Rattle.setup.specs.Handed.{held};
ghost use Rattle.record_step.specs.Inner.Kept.{KeptTables, KeptOutputs, packet_answered, AudioStep};

use crate::unchanged::refused;
use crate::{Kept, Stepped};
use audio::{AudioAnswer, Tally};
use audio_call::read_packet;
use audio_settle::size::curve_bytes;
use bits::refusal::Reason;
use identification::Identity;
use records::Answer;
use setup::lent::LentTables;

// What an audio call's answer comes to. A refusal left both outputs all zero; an accepted packet its curves and codewords at their fronts: what the next
// call has to clear is that and no more.
fn answered(kept: Kept, identity: Identity, tally: Tally, answer: AudioAnswer) -> Stepped
    requires { (identity.channels ≤ 255) × (answer.blocksize ≤ 8192) }
    ensures { result ≡ packet_answered kept identity tally answer }
{
    if answer.refusal != 0 {
        return Stepped {
            kept: Kept {
                tally,
                curves_end: 0,
                words_end: 0,
                ..kept
            },
            answer: Answer::Refused(answer.refusal),
        };
    }
    Stepped {
        kept: Kept {
            tally,
            curves_end: curve_bytes(identity.channels, answer.blocksize),
            words_end: answer.codewords as usize,
            ..kept
        },
        answer: Answer::AudioRead(answer.blocksize, answer.samples, answer.codewords),
    }
}

// The record's body, by the identity and the tables that are kept, into the outputs.
pub fn after_audio(
    kept: Kept,
    body: &[u8],
    tables: LentTables<'_>,
    curves: &mut [u8],
    words: &mut [u32],
) -> Stepped
    requires { KeptTables kept (held tables) × KeptOutputs kept curves.old words.old }
    ensures { AudioStep kept body.now (held tables.entry) result curves.new words.new }
{
    let Some(identity) = kept.identity else {
        return refused(kept, Reason::Unsound.number() as u32);
    };
    if !kept.has_tables {
        return refused(kept, Reason::Unsound.number() as u32);
    }
    let left = read_packet(
        kept.tally,
        identity,
        tables,
        body,
        curves,
        words,
        kept.curves_end,
        kept.words_end,
    );
    answered(kept, identity, left.tally, left.answer)
}
