// Identification packets on both sides of each rule, one line each: the 30 bytes of 01's last figure, changed and cut.
// The line's number names the case: 1 to 99 by what is changed, 100 + n for a packet cut to n bytes, 200 + n for a wrong opening byte n.
#![tactic(auto)]

ghost use Rattle.std.specs.Prelude.{◌<◌, ◌≤◌};

use records::Answer;
use std::io;
use std::io::{Print, Stdout};
use torchvalley::IdentityAnswer;

// The good packet, and one byte more: one channel, rate 8000, block sizes 256 and 2048.
fn good() -> [u8; 31] {
    [
        1, 0x76, 0x6F, 0x72, 0x62, 0x69, 0x73, 0, 0, 0, 0, 1, 0x40, 0x1F, 0, 0, 0, 0, 0, 0, 0, 0,
        0, 0, 0, 0, 0, 0, 0xB8, 1, 0xFF,
    ]
}

// The first `length` bytes of a packet.
fn cut(out: Stdout, number: u64, packet: [u8; 31], length: usize) -> io::Result<()>
    requires { length ≤ 31 }
{
    write_line(
        out,
        number,
        came_to(torchvalley::torchvalley_identification(&packet[..length])),
    )
}

// What a packet came to, as the tool has it.
fn came_to(answer: IdentityAnswer) -> Answer {
    match answer.refusal {
        0 => Answer::Identified(answer.identity),
        number => Answer::Refused(number),
    }
}

// The tool's line, to standard output.
fn write_line(out: Stdout, number: u64, answer: Answer) -> io::Result<()> {
    let mut line = [0u8; record_lines::LONGEST];
    let end = record_lines::put_line(number, answer, &mut line, 0);
    out.write_all(&line[..end])
}

// A packet with one byte changed.
fn changed(mut packet: [u8; 31], at: usize, byte: u8) -> [u8; 31]
    requires { at < 31 }
{
    packet[at] = byte;
    packet
}

fn main(rt: HostRuntime) -> io::Result<()> {
    let out = rt.stdout();
    cut(out, 1, good(), 30)?;
    cut(out, 2, good(), 31)?;
    versions(out)?;
    channels(out)?;
    rates(out)?;
    block_sizes(out)?;
    framing(out)?;
    opening(out)?;
    cuts(out)?;
    wrong_bytes(out)
}

// Every cut length.
fn cuts(out: Stdout) -> io::Result<()> {
    for length in 0..30 {
        cut(out, 100 + length as u64, good(), length)?;
    }
    Ok(())
}

// Each of the seven opening bytes wrong.
fn wrong_bytes(out: Stdout) -> io::Result<()> {
    for at in 0..7 {
        cut(out, 200 + at as u64, changed(good(), at, 0), 30)?;
    }
    Ok(())
}

// Version 1 in its lowest and in its highest bit; before the channels; a version that is cut is a cut, whatever its bits show.
fn versions(out: Stdout) -> io::Result<()> {
    cut(out, 10, changed(good(), 7, 1), 30)?;
    cut(out, 11, changed(good(), 10, 0x80), 30)?;
    cut(out, 12, changed(changed(good(), 7, 1), 11, 0), 30)?;
    cut(out, 13, changed(good(), 7, 1), 10)
}

// 8, 9, 255 and 0 channels; judged at their byte, before a rate that is 0 or cut.
fn channels(out: Stdout) -> io::Result<()> {
    cut(out, 20, changed(good(), 11, 8), 30)?;
    cut(out, 21, changed(good(), 11, 9), 30)?;
    cut(out, 22, changed(good(), 11, 255), 30)?;
    cut(out, 23, changed(good(), 11, 0), 30)?;
    cut(out, 24, changed(good(), 11, 0), 12)?;
    cut(out, 25, changed(good(), 11, 9), 12)
}

// Rate 0, and the greatest byte in the highest place.
fn rates(out: Stdout) -> io::Result<()> {
    cut(out, 30, changed(changed(good(), 12, 0), 13, 0), 30)?;
    cut(out, 31, changed(changed(good(), 12, 0), 13, 0), 16)?;
    cut(out, 32, changed(changed(good(), 12, 0), 15, 0x80), 30)
}

// Exponents 5 and 14, each of the two; 6 and 13; equal; the first above the second.
fn block_sizes(out: Stdout) -> io::Result<()> {
    cut(out, 40, changed(good(), 28, 0xB5), 30)?;
    cut(out, 41, changed(good(), 28, 0xBE), 30)?;
    cut(out, 42, changed(good(), 28, 0x58), 30)?;
    cut(out, 43, changed(good(), 28, 0xE8), 30)?;
    cut(out, 44, changed(good(), 28, 0xD6), 30)?;
    cut(out, 45, changed(good(), 28, 0x88), 30)?;
    cut(out, 46, changed(good(), 28, 0x8B), 30)?;
    cut(out, 47, changed(good(), 28, 0x8B), 29)
}

// Framing bit 0, with and without other bits in its byte; 1 with other bits.
fn framing(out: Stdout) -> io::Result<()> {
    cut(out, 50, changed(good(), 29, 0), 30)?;
    cut(out, 51, changed(good(), 29, 0xFE), 30)?;
    cut(out, 52, changed(good(), 29, 0xFF), 30)
}

// A wrong name byte, and then the end: each byte is judged before the next is needed.
fn opening(out: Stdout) -> io::Result<()> {
    cut(out, 60, changed(good(), 1, 0), 2)?;
    cut(out, 61, changed(good(), 1, 0), 1)?;
    cut(out, 62, changed(good(), 0, 5), 1)
}
