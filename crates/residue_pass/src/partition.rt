// Partitions (001, "packet decode", steps 11 to 19).
ghost use Rattle.std.specs.Prelude.{◌≡◌, ◌+◌, ◌-◌, ◌/◌, ◌%◌, ◌^◌, ◌≤◌, ◌<◌, length};
ghost use Rattle.bits.specs.Inner.Cursors.{position};
ghost use Rattle.residue_requests.specs.Requests.{classes_of};
ghost use Rattle.residue_requests.specs.Inner.Again.{entries_from};
ghost use Rattle.codeword_list.specs.Inner.ListRead.{ReadIntoList};
ghost use Rattle.residue_pass.specs.Inner.Readable.{group_classes};
ghost use Rattle.residue_pass.specs.Inner.Decoders.{ResidueReady, residue_of, partition_by, partitions_by};

use crate::Decoder;
use codeword_list::{Progress, Stop};

// A partition of a class in a pass: with the book that the plan has for them, or nothing.
pub fn read_partition(
    packet: &[u8],
    from: Progress,
    decoder: &Decoder<'_>,
    class: u32,
    pass: u32,
    out: &mut [u32],
) -> Result<Progress, Stop>
    requires { (from.count ≤ length out.old) × ResidueReady decoder.now
        × (class < decoder.now.head.classifications) × (pass < 8) }
    ensures { ReadIntoList (partition_by decoder.now pass class
        packet.now (position from.at)) out.old from.count result out.new }
{
    let place = residue_row::plan_place(decoder.plans, decoder.residue, class, pass);
    if place == 0 {
        return Ok(from);
    }
    let book = place as u32 - 1;
    codeword_list::read_run(
        packet,
        from,
        book,
        decoder.head.size,
        decoder.codebooks,
        out,
    )
}

// A partition of each of `live` vectors: their class words stand in the list from place `at` on, and the digit that is taken has `unused` digits after it.
pub fn read_across_vectors(
    packet: &[u8],
    from: Progress,
    decoder: &Decoder<'_>,
    at: usize,
    live: usize,
    unused: u32,
    divisor: u32,
    pass: u32,
    out: &mut [u32],
) -> Result<Progress, Stop>
    requires { (from.count ≤ length out.old) × ResidueReady decoder.now
        × (pass < 8) × (at + live ≤ from.count) × (divisor ≡ decoder.now.head.classifications ^ unused) }
    ensures { ReadIntoList (partitions_by decoder.now pass
        (classes_of (residue_of decoder.now) unused (entries_from out.old at live))
        packet.now (position from.at)) out.old from.count result out.new }
{
    let mut next = from;
    for j in 0..live {
        let class = out[at + j] / 2 / divisor % decoder.head.classifications;
        next = read_partition(packet, next, decoder, class, pass, out)?;
    }
    Ok(next)
}

// `rows` partitions of each of `live` vectors, by the class words that stand in the list from place `at` on. They have the decoder's `digits`
// digits, and its `top` is what the first is divided by.
pub fn read_rows(
    packet: &[u8],
    from: Progress,
    decoder: &Decoder<'_>,
    at: usize,
    live: usize,
    rows: u32,
    pass: u32,
    out: &mut [u32],
) -> Result<Progress, Stop>
    requires { (from.count ≤ length out.old) × ResidueReady decoder.now
        × (pass < 8) × (at + live ≤ from.count) × (rows ≤ decoder.now.digits) × (decoder.now.top ≡ decoder.now.head.classifications ^ (decoder.now.digits - 1)) }
    ensures { ReadIntoList (partitions_by decoder.now pass
        (group_classes (residue_of decoder.now) decoder.now.digits (entries_from out.old at live) rows)
        packet.now (position from.at)) out.old from.count result out.new }
{
    let mut next = from;
    let mut divisor = decoder.top;
    for unused in (decoder.digits - rows..decoder.digits).rev() {
        next = read_across_vectors(packet, next, decoder, at, live, unused, divisor, pass, out)?;
        divisor /= decoder.head.classifications;
    }
    Ok(next)
}
