// AN IDENTIFICATION RECORD: a good one becomes the stream's identity and clears tables and tally; a refused one changes nothing (01, the tool).
ghost use Rattle.record_step.specs.Inner.Kept.{IdentificationStep};

use crate::unchanged::refused;
use crate::{Kept, NO_TALLY, Stepped};
use limits::Limits;
use records::Answer;

// The record's body. Neither tables nor outputs are touched: that none are kept any longer is said beside them.
pub fn after_identification(kept: Kept, body: &[u8]) -> Stepped
    ensures { IdentificationStep kept body.now result }
{
    match identification::read(body, Limits::standard()) {
        Ok(identity) => Stepped {
            kept: Kept {
                identity: Some(identity),
                has_tables: false,
                tally: NO_TALLY,
                ..kept
            },
            answer: Answer::Identified(identity),
        },
        Err(refusal) => refused(kept, refusal.reason.number() as u32),
    }
}
