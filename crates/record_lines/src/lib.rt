// The tool's lines (01, the tool), put into a lent buffer.
#![tactic(auto)]

mod fields;
mod words;

ghost use Rattle.std.specs.Prelude.{◌≡◌, ◌+◌, ◌≤◌, length};
ghost use Rattle.std.proofs.lemmas.List.Edits.{sets};
ghost use Rattle.record_lines.specs.Lines.{line, torn_line, end_line};

use records::Answer;

// How many places a line has at the most.
pub const LONGEST: usize = 128;

// Puts the line of record `number` at a place, and answers the place behind it.
pub fn put_line(number: u64, answer: Answer, out: &mut [u8], at: usize) -> usize
    requires { at + 128 ≤ length out.old }
    ensures out_after { out.new ≡ sets out.old at (line number answer) }
    ensures value { (result ≡ at + length (line number answer)) × (result ≤ at + 128) }
{
    let at_words = fields::put_decimal(number, out, at);
    let at_newline = words::put_words(answer, out, at_words);
    fields::put_text(b"\n", out, at_newline)
}

// Puts the line that record `number` is torn.
pub fn put_torn(number: u64, out: &mut [u8], at: usize) -> usize
    requires { at + 128 ≤ length out.old }
    ensures out_after { out.new ≡ sets out.old at (torn_line number) }
    ensures value { (result ≡ at + length (torn_line number)) × (result ≤ at + 128) }
{
    let at_words = fields::put_decimal(number, out, at);
    fields::put_text(b" torn\n", out, at_words)
}

// Puts the last line: there were `number` whole records.
pub fn put_end(number: u64, out: &mut [u8], at: usize) -> usize
    requires { at + 128 ≤ length out.old }
    ensures out_after { out.new ≡ sets out.old at (end_line number) }
    ensures value { (result ≡ at + length (end_line number)) × (result ≤ at + 128) }
{
    let at_end = fields::put_field(b"end ", number, out, at);
    fields::put_text(b"\n", out, at_end)
}
