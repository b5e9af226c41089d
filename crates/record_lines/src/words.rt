// What a record came to, as the words of its line: one function for each kind of answer that has numbers.
ghost use Rattle.std.specs.Prelude.{◌+◌, ◌≤◌, length};
ghost use Rattle.records.specs.declared.Answer.TheVariants.{Identified, SetUp, AudioRead};
ghost use Rattle.record_lines.specs.Lines.{words};
ghost use Rattle.record_lines.specs.Inner.Puts.{Put};

use crate::fields::{put_field, put_short_field, put_short_fields, put_text};
use identification::Identity;
use records::Answer;

// Puts what stands behind a record's number in its line.
pub fn put_words(answer: Answer, out: &mut [u8], at: usize) -> usize
    requires { at + 100 ≤ length out.old }
    ensures { Put out.old out.new at result 100 (words answer) }
{
    match answer {
        Answer::Identified(identity) => put_identified(identity, out, at),
        Answer::SetUp(book_count, mode_count) => put_set_up(book_count, mode_count, out, at),
        Answer::AudioRead(block, samples, codewords) => {
            put_audio(block, samples, codewords, out, at)
        }
        Answer::Refused(number) => put_short_field(b" refused ", number, out, at),
        Answer::Unknown => put_text(b" kind unknown", out, at),
        Answer::TooLong => put_text(b" too long", out, at),
    }
}

// An identification packet that was accepted.
fn put_identified(identity: Identity, out: &mut [u8], at: usize) -> usize
    requires { at + 74 ≤ length out.old }
    ensures { Put out.old out.new at result 74 (words (Identified identity)) }
{
    let at_blocks = put_short_fields(
        b" identity channels ",
        identity.channels,
        b" rate ",
        identity.rate,
        out,
        at,
    );
    put_short_fields(
        b" blocks ",
        identity.blocksize0,
        b" ",
        identity.blocksize1,
        out,
        at_blocks,
    )
}

// A setup packet that was accepted.
fn put_set_up(book_count: u32, mode_count: u32, out: &mut [u8], at: usize) -> usize
    requires { at + 40 ≤ length out.old }
    ensures { Put out.old out.new at result 40 (words (SetUp book_count mode_count)) }
{
    put_short_fields(
        b" setup books ",
        book_count,
        b" modes ",
        mode_count,
        out,
        at,
    )
}

// An audio packet that was accepted.
fn put_audio(block: u32, samples: u64, codewords: u64, out: &mut [u8], at: usize) -> usize
    requires { at + 79 ≤ length out.old }
    ensures { Put out.old out.new at result 79 (words (AudioRead block samples codewords)) }
{
    let at_samples = put_short_field(b" audio block ", block, out, at);
    let at_codewords = put_field(b" samples ", samples, out, at_samples);
    put_field(b" words ", codewords, out, at_codewords)
}
