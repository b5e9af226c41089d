// Codewords that are read into the lent list, one after the other, up to a cut or the list's end (01, "Audio order" 5).
#![tactic(auto)]

ghost use Rattle.std.specs.Prelude.{◌≡◌, ◌+◌, ◌*◌, ◌/◌, ◌≤◌, length};
ghost use Rattle.reading.specs.Least.{one};
ghost use Rattle.bits.specs.Inner.Cursors.{position};
ghost use Rattle.codeword_assignment.specs.Book.{lone_mark};
ghost use Rattle.codeword.specs.Inner.Book.{Codebook};
ghost use Rattle.book_codeword.specs.Inner.Stored.{dimensions_in, BookStored};
ghost use Rattle.residue_requests.specs.Inner.Unplaced.{flat_vectors};
ghost use Rattle.codeword_list.specs.Inner.ListRead.{ReadIntoList};
ghost use Rattle.codeword_list.specs.Inner.WordsRun.{words_run, one_word, vectors_run};

use bits::Cursor;
use book_codeword::Codebooks;

// Where reading goes on, and how many codewords the list holds.
#[derive(Clone, Copy)]
pub struct Progress {
    pub at: Cursor,
    pub count: usize,
}

// What stops reading codewords into the list before all that was asked is there.
#[derive(Clone, Copy)]
pub enum Stop {
    // A codeword was cut: the position behind the last whole one, and how many there are.
    Cut(Progress),
    // The list is too short: refusal 17, whatever else the packet holds.
    Full,
}

// A codeword as the list has it: twice its entry, plus 1 where it names a vector.
fn list_number(entry: u32, vector: bool) -> u32
    requires { entry ≤ 16777216 }
    ensures { result ≡ 2 * entry + one vector }
{
    2 * entry + vector as u32
}

// One codeword of a book: one that names a vector, or a class word.
pub fn read_word(
    packet: &[u8],
    from: Progress,
    book: u32,
    vector: bool,
    codebooks: Codebooks,
    out: &mut [u32],
) -> Result<Progress, Stop>
    requires { (from.count ≤ length out.old) × BookStored codebooks.books.now codebooks.lengths.now codebooks.codewords.now book }
    ensures { ReadIntoList (words_run codebooks.entry.books.now codebooks.entry.lengths.now (one_word book vector) packet.now (position from.at))
        out.old from.count result out.new }
{
    let Ok((entry, next)) = book_codeword::read_entry(packet, from.at, book, codebooks) else {
        return Err(Stop::Cut(from));
    };
    let needed = from.count + 1;
    if out.len() < needed {
        return Err(Stop::Full);
    }
    out[from.count] = list_number(entry, vector);
    Ok(Progress {
        at: next,
        count: needed,
    })
}

// The codewords of a book for `size` values, each naming a vector of `dimensions` values: as many as fit. The book is lent as its own part of the tables.
// What is left is counted down by the dimensions: a `for` over the number of codewords would divide first.
fn read_vectors(
    packet: &[u8],
    from: Progress,
    size: u32,
    dimensions: u32,
    lone: u32,
    lengths: &[u8],
    codewords: &[u32],
    out: &mut [u32],
) -> Result<Progress, Stop>
    requires { (from.count ≤ length out.old) × Codebook lengths.now codewords.now × (lone ≡ lone_mark lengths.now) × (1 ≤ dimensions) }
    ensures { ReadIntoList (vectors_run lengths.now (size / dimensions) packet.now (position from.at))
        out.old from.count result out.new }
{
    let mut done = from;
    let mut left = size;
    while dimensions <= left {
        let Ok((entry, next)) = codeword::read_codeword(packet, done.at, lone, lengths, codewords)
        else {
            return Err(Stop::Cut(done));
        };
        let needed = done.count + 1;
        if out.len() < needed {
            return Err(Stop::Full);
        }
        out[done.count] = list_number(entry, true);
        done = Progress {
            at: next,
            count: needed,
        };
        left -= dimensions;
    }
    Ok(done)
}

// The codewords of a partition of `size` values, each naming a vector. The book's row is looked up once for all.
pub fn read_run(
    packet: &[u8],
    from: Progress,
    book: u32,
    size: u32,
    codebooks: Codebooks,
    out: &mut [u32],
) -> Result<Progress, Stop>
    requires { (from.count ≤ length out.old) × BookStored codebooks.books.now codebooks.lengths.now codebooks.codewords.now book
        × (1 ≤ dimensions_in codebooks.books.now book) }
    ensures { ReadIntoList (words_run codebooks.entry.books.now codebooks.entry.lengths.now
        (flat_vectors book (size / dimensions_in codebooks.entry.books.now book)) packet.now (position from.at)) out.old from.count result out.new }
{
    let first = book_row::first_entry(codebooks.books, book) as usize;
    let end = first + book_row::entries(codebooks.books, book) as usize;
    let lone = book_row::lone(codebooks.books, book);
    let dimensions = book_row::dimensions(codebooks.books, book);
    read_vectors(
        packet,
        from,
        size,
        dimensions,
        lone,
        &codebooks.lengths[first..end],
        &codebooks.codewords[first..end],
        out,
    )
}
