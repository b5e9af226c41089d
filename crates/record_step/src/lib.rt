// THE TOOL'S STEP, by one record: identity, tables and tally from record to record, and what each came to (01, the tool).
#![tactic(auto)]

pub mod audio_step; // an audio record
pub mod identification_step; // an identification record
pub mod setup_step; // a setup record
pub mod unchanged; // a record that changes nothing

ghost use Rattle.std.specs.Prelude.{◌≡◌};
ghost use Rattle.setup.specs.Handed.{held_mut, StaysLent};
ghost use Rattle.record_step.specs.Step.{step as record_step};
ghost use Rattle.record_step.specs.Inner.Kept.{stream_of, KeptTables, KeptOutputs, StartsWith};

use crate::audio_step::after_audio;
use crate::identification_step::after_identification;
use crate::setup_step::after_setup;
use audio::Tally;
use identification::Identity;
use records::Answer;
use setup::lent::LentTablesMut;

// The tally of a stream of which nothing was read.
pub const NO_TALLY: Tally = Tally {
    blocksize: 0,
    samples: 0,
};

// What is kept from record to record beside the lent tables and outputs.
#[derive(Clone, Copy)]
pub struct Kept {
    pub identity: Option<Identity>,
    // Whether the tables are those of a setup that was accepted for this identity. They lie with the caller, so they are no value here.
    pub has_tables: bool,
    pub tally: Tally,
    // How many places of each output may hold something.
    pub curves_end: usize,
    pub words_end: usize,
}

// What a record comes to, and what is kept after it.
#[derive(Clone, Copy)]
pub struct Stepped {
    pub kept: Kept,
    pub answer: Answer,
}

// Before the first record: nothing is kept, and the outputs may hold anything.
#[tactic(auto, unfolding(crate::specs::Inner::Kept::stream_of))]
pub fn first() -> Kept
    ensures { StartsWith result }
{
    Kept {
        identity: None,
        has_tables: false,
        tally: NO_TALLY,
        curves_end: 32768,
        words_end: 16384,
    }
}

// THE STEP, by one record: its kind, its body, and the tables and outputs that the stream has.
#[tactic(auto, unfolding(crate::specs::Step::step))]
pub fn step(
    kept: Kept,
    kind: u32,
    body: &[u8],
    tables: &mut LentTablesMut<'_>,
    curves: &mut [u8],
    words: &mut [u32],
) -> Stepped
    requires { KeptTables kept (held_mut tables.old) × KeptOutputs kept curves.old words.old }
    ensures answer_and_stream { (stream_of result.kept (held_mut tables.new), result.answer) ≡ record_step (stream_of kept (held_mut tables.old)) kind body.now }
    ensures kept_tables { KeptTables result.kept (held_mut tables.new) × KeptOutputs result.kept curves.new words.new }
    ensures lent { StaysLent tables.old tables.new }
{
    match kind {
        1 => after_identification(kept, body),
        2 => after_setup(kept, body, tables),
        3 => after_audio(kept, body, tables.shared(), curves, words),
        _ => Stepped {
            kept,
            answer: Answer::Unknown,
        },
    }
}
