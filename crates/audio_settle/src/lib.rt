// What a call leaves: the answer, and both outputs with nothing behind what the packet gave; or a refusal, with both outputs all zero.
#![tactic(auto)]

pub mod clear; // places of an output that an earlier packet left
pub mod size; // how many curve bytes a packet has

ghost use Rattle.std.specs.Prelude.{◌≡◌, ◌≤◌, IfOk};
ghost use Rattle.audio.specs.Call.{refused, left_of};
ghost use Rattle.audio_settle.specs.Inner.Judged.{answer_by, accepted_left, early_left, refused_left, settled};

use audio::{AudioAnswer, AudioLeft, Head, Tally, Window};
use audio_head::points::window;
use clear::clear_between;
use identification::Identity;
use reading::buffers::clear;
use size::curve_bytes;

// An accepted packet.
#[derive(Clone, Copy)]
pub struct Judged {
    pub head: Head,
    // For each channel 1 where its floor is used; zeros behind the last channel. Bytes, as the answer has them for C (AudioAnswer).
    pub used: [u8; 255],
    // How many codewords stand in the list.
    pub words: usize,
    // The samples that the packet finishes, and the tally after it.
    pub samples: u64,
    pub tally: Tally,
}

// A packet that is sent back: the number of the refusal, as C is answered, and whether anything was written to the outputs before. No number tells that: 17 is
// found before anything is written and after.
#[derive(Clone, Copy)]
pub struct Rejected {
    pub refusal: u32,
    pub written: bool,
}

// A refusal's answer: its number alone.
pub fn refused_answer(refusal: u32) -> AudioAnswer
    ensures { result ≡ refused refusal }
{
    AudioAnswer {
        refusal,
        mode: 0,
        blocksize: 0,
        previous: 0,
        next: 0,
        window: Window {
            left_start: 0,
            left_end: 0,
            right_start: 0,
            right_end: 0,
        },
        samples: 0,
        codewords: 0,
        used: [0; 255],
    }
}

// An accepted packet's answer.
fn answer_of(identity: Identity, judged: Judged) -> AudioAnswer
    requires { (identity.blocksize0 ≤ 8192) × (judged.head.blocksize ≤ 8192) }
    ensures { result ≡ answer_by identity judged }
{
    let head = judged.head;
    // Not straight into the answer below: an array that goes from field to field has no proof (tried).
    let used = judged.used;
    AudioAnswer {
        refusal: 0,
        mode: head.mode,
        blocksize: head.blocksize,
        previous: head.previous,
        next: head.next,
        window: window(identity.blocksize0, head),
        samples: judged.samples,
        codewords: judged.words as u64,
        used,
    }
}

// A refusal that leaves nothing of what the outputs held, which are cleared whole: no ends are known. Any number is taken, not 01's alone: a caller may
// have its own.
pub fn refuse(refusal: u32, tally: Tally, curves: &mut [u8], words: &mut [u32]) -> AudioLeft
    ensures { left_of result.answer result.tally curves.new words.new
        ≡ refused_left refusal tally curves.old words.old }
{
    clear(curves);
    clear(words);
    AudioLeft {
        tally,
        answer: refused_answer(refusal),
    }
}

// A refusal before anything was written: what an earlier packet left, up to `curves_end` and `words_end`, is cleared.
fn refuse_early(
    refusal: u32,
    tally: Tally,
    curves: &mut [u8],
    words: &mut [u32],
    curves_end: usize,
    words_end: usize,
) -> AudioLeft
    ensures { left_of result.answer result.tally curves.new words.new
        ≡ early_left refusal tally curves.old words.old curves_end words_end }
{
    clear_between(curves, 0, curves_end);
    clear_between(words, 0, words_end);
    AudioLeft {
        tally,
        answer: refused_answer(refusal),
    }
}

// An accepted packet: what an earlier one left behind its curves and codewords, up to `curves_end` and `words_end`, is cleared.
fn accept(
    identity: Identity,
    judged: Judged,
    curves: &mut [u8],
    words: &mut [u32],
    curves_end: usize,
    words_end: usize,
) -> AudioLeft
    requires { (identity.channels ≤ 255) × (identity.blocksize0 ≤ 8192) × (judged.head.blocksize ≤ 8192) }
    ensures { left_of result.answer result.tally curves.new words.new
        ≡ accepted_left identity judged curves.old words.old curves_end words_end }
{
    let bytes = curve_bytes(identity.channels, judged.head.blocksize);
    clear_between(curves, bytes, curves_end);
    clear_between(words, judged.words, words_end);
    AudioLeft {
        tally: judged.tally,
        answer: answer_of(identity, judged),
    }
}

// What judging came to, as the call leaves it. As `refuse` does, it takes any number of a refusal.
pub fn settle(
    identity: Identity,
    tally: Tally,
    judged: Result<Judged, Rejected>,
    curves: &mut [u8],
    words: &mut [u32],
    curves_end: usize,
    words_end: usize,
) -> AudioLeft
    requires { (identity.channels ≤ 255) × (identity.blocksize0 ≤ 8192) × IfOk judged (λ x. x.head.blocksize ≤ 8192) }
    ensures { left_of result.answer result.tally curves.new words.new
        ≡ settled identity tally judged curves.old words.old curves_end words_end }
{
    match judged {
        Ok(packet) => accept(identity, packet, curves, words, curves_end, words_end),
        Err(rejected) => {
            let refusal = rejected.refusal;
            if rejected.written {
                refuse(refusal, tally, curves, words)
            } else {
                refuse_early(refusal, tally, curves, words, curves_end, words_end)
            }
        }
    }
}
