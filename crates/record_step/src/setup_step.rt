// A SETUP RECORD: a good one leaves its content in the tables and clears the tally; a refused one leaves no tables; without an identity it is 18
// (01, the tool).
ghost use Rattle.setup.specs.Handed.{held_mut, StaysLent};
ghost use Rattle.record_step.specs.Inner.Kept.{KeptTables, SetupStep};

use crate::unchanged::refused;
use crate::{Kept, NO_TALLY, Stepped};
use bits::refusal::Reason;
use limits::Limits;
use reading::buffers::get;
use records::Answer;
use setup::lent::LentTablesMut;
use setup_call::read_setup;

// The record's body, by the identity that is kept, into the tables, which then say how many books and modes there are.
pub fn after_setup(kept: Kept, body: &[u8], tables: &mut LentTablesMut<'_>) -> Stepped
    requires { KeptTables kept (held_mut tables.old) }
    ensures step { SetupStep kept body.now (held_mut tables.old) result (held_mut tables.new) }
    ensures lent { StaysLent tables.old tables.new }
{
    let Some(identity) = kept.identity else {
        return refused(kept, Reason::Unsound.number() as u32);
    };
    let number = read_setup(body, identity, Limits::standard(), tables);
    if number != 0 {
        return Stepped {
            kept: Kept {
                has_tables: false,
                ..kept
            },
            answer: Answer::Refused(number),
        };
    }
    let counts = tables.shared().counts;
    Stepped {
        kept: Kept {
            has_tables: true,
            tally: NO_TALLY,
            ..kept
        },
        answer: Answer::SetUp(get(counts, 0), get(counts, 4)),
    }
}
