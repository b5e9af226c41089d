// A record that changes nothing of the stream (01, the tool).
ghost use Rattle.std.specs.Prelude.{◌≡◌};
ghost use Rattle.records.specs.declared.Answer.TheVariants.{Refused};
ghost use Rattle.record_step.specs.Inner.Kept.{unchanged};

use crate::{Kept, Stepped};
use records::Answer;

// A refusal: its number alone, as the calls for C answer it.
pub fn refused(kept: Kept, number: u32) -> Stepped
    ensures { result ≡ unchanged kept (Refused number) }
{
    Stepped {
        kept,
        answer: Answer::Refused(number),
    }
}
