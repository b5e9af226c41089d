// Pass 0: class words and their groups of partitions, which call each other while the number of partitions left falls (001, "packet decode", steps 4 to 21;
// 01, "The shape of some places").
ghost use Rattle.std.specs.Prelude.{[], ◌≡◌, ◌-◌, ◌≤◌, ◌<◌, length};
ghost use Rattle.bits.specs.Inner.Cursors.{position};
ghost use Rattle.book_codeword.specs.Inner.Stored.{BookStored};
ghost use Rattle.residue_requests.specs.Inner.Unplaced.{flat_class_words};
ghost use Rattle.residue_requests.specs.Inner.Again.{entries_from};
ghost use Rattle.codeword_list.specs.Inner.ListRead.{ReadIntoList};
ghost use Rattle.codeword_list.specs.Inner.WordsRun.{words_run};
ghost use Rattle.residue_pass.specs.Inner.Decoders.{PassReady, first_pass_by};

use super::{Decoder, partition};
use book_codeword::Codebooks;
use codeword_list::{Progress, Stop};

// A class word for each of `live` vectors.
pub fn read_class_words(
    packet: &[u8],
    from: Progress,
    book: u32,
    live: usize,
    codebooks: Codebooks,
    out: &mut [u32],
) -> Result<Progress, Stop>
    requires { (from.count ≤ length out.old) × BookStored codebooks.books.now codebooks.lengths.now codebooks.codewords.now book }
    ensures { ReadIntoList (words_run codebooks.entry.books.now codebooks.entry.lengths.now (flat_class_words book live [])
        packet.now (position from.at)) out.old from.count result out.new }
{
    let mut next = from;
    for i in 0..live {
        next = codeword_list::read_word(packet, next, book, false, codebooks, out)?;
    }
    Ok(next)
}

// The class words of `left` partitions of each of `live` vectors, each with its group of partitions after it.
#[cycle(class_word_group)]
pub fn class_word(
    packet: &[u8],
    from: Progress,
    decoder: &Decoder<'_>,
    live: usize,
    left: u32,
    out: &mut [u32],
) -> Result<Progress, Stop>
    requires { (from.count ≤ length out.old) × PassReady decoder.now }
    ensures { ReadIntoList (first_pass_by decoder.now live left 0 []
        packet.now (position from.at)) out.old from.count result out.new }
{
    if left == 0 {
        return Ok(from);
    }
    let words = read_class_words(
        packet,
        from,
        decoder.head.classbook,
        live,
        decoder.codebooks,
        out,
    )?;
    group(packet, words, decoder, live, left, out)
}

// A group of partitions by the class words that stand last in the list, and then the next class words. Digits past the last partition are not used.
#[cycle(class_word_group)]
pub fn group(
    packet: &[u8],
    from: Progress,
    decoder: &Decoder<'_>,
    live: usize,
    left: u32,
    out: &mut [u32],
) -> Result<Progress, Stop>
    requires { (from.count ≤ length out.old) × PassReady decoder.now
        × (live ≤ from.count) × (0 < left) }
    ensures { ReadIntoList (first_pass_by decoder.now live left decoder.now.digits
        (entries_from out.old (from.count - live) live)
        packet.now (position from.at)) out.old from.count result out.new }
{
    let at = from.count - live;
    let rows = decoder.digits.min(left);
    let next = partition::read_rows(packet, from, decoder, at, live, rows, 0, out)?;
    class_word(packet, next, decoder, live, left - rows, out)
}
