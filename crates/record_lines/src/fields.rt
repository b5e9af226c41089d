// What lines are made of: texts, numbers in decimal, and fields, each a text with a number behind it.
ghost use Rattle.std.specs.Prelude.{◌+◌, ◌≤◌, ◌++◌, length};
ghost use Rattle.record_lines.specs.Text.{decimal};
ghost use Rattle.record_lines.specs.Inner.Puts.{Put, ShortFields};

use reading::buffers::write;

// Puts a text at a place, and answers the place behind it.
pub fn put_text(text: &[u8], out: &mut [u8], at: usize) -> usize
    requires { at + length text.now ≤ length out.old }
    ensures { Put out.old out.new at result (length text.now) text.now }
{
    write(out, at, text);
    at + text.len()
}

// Puts a number in decimal.
#[tactic(auto, using(crate::proofs::Laws::known, crate::proofs::Numbers::decimal_is, crate::proofs::Numbers::long_decimal))]
pub fn put_decimal(number: u64, out: &mut [u8], at: usize) -> usize
    requires { at + length (decimal number) ≤ length out.old }
    ensures { Put out.old out.new at result 20 (decimal number) }
{
    let mut digits = itoa::Buffer::new();
    put_text(digits.format(number).as_bytes(), out, at)
}

// Puts a text with a number behind it.
pub fn put_field(text: &[u8], number: u64, out: &mut [u8], at: usize) -> usize
    requires { at + (length text.now + 20) ≤ length out.old }
    ensures { Put out.old out.new at result (length text.now + 20) (text.now ++ decimal number) }
{
    let at_number = put_text(text, out, at);
    put_decimal(number, out, at_number)
}

// Puts a text with a number of 32 bits behind it, which has ten digits at the most. A function of its own beside `put_field`: by 20 digits each, the numbers
// of an identity would not fit a line's 128 places.
pub fn put_short_field(text: &[u8], number: u32, out: &mut [u8], at: usize) -> usize
    requires { at + (length text.now + 10) ≤ length out.old }
    ensures { Put out.old out.new at result (length text.now + 10) (text.now ++ decimal number) }
{
    let at_number = put_text(text, out, at);
    put_decimal(number as u64, out, at_number)
}

// Puts two such fields.
pub fn put_short_fields(
    text: &[u8],
    number: u32,
    then: &[u8],
    other: u32,
    out: &mut [u8],
    at: usize,
) -> usize
    requires { at + (length text.now + 10 + (length then.now + 10)) ≤ length out.old }
    ensures { ShortFields out.old out.new at result text.now number then.now other }
{
    let at_other = put_short_field(text, number, out, at);
    put_short_field(then, other, out, at_other)
}
