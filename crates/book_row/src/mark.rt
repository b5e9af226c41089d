// The mark of a book in its row: whether it has a sole used entry of length 1, and which. Reading such an entry takes one bit, whatever it is
// (02, wish 3), so that a packet can ask for as many as it has bits: each has to be found without a search.
ghost use Rattle.std.specs.Prelude.{◌≡◌, true, ◌+◌, ◌<◌, ◌≤◌, length, take, drop};
ghost use Rattle.codeword_assignment.specs.Book.{used, is_lone, first_used, lone_mark};

// The mark of a book whose `count` lengths lie from `first` on.
pub fn lone_mark_at(lengths: &[u8], first: u32, count: u32) -> u32
    requires { first + count ≤ length lengths.now }
    ensures { result ≡ lone_mark (take count (drop first lengths.now)) }
{
    let start = first as usize;
    lone_mark(&lengths[start..start + count as usize])
}

// The number of the sole used entry of length 1 plus one, or 0 where there is none. No Option: it is the last number of the book's row.
fn lone_mark(lengths: &[u8]) -> u32
    requires { length lengths.now < 4294967296 }
    ensures { result ≡ lone_mark lengths.now }
{
    if !codeword_assignment::book::is_lone(lengths) {
        return 0;
    }
    (first_used(lengths) + 1) as u32
}

// The first used entry of a book that has one.
fn first_used(lengths: &[u8]) -> usize
    requires { is_lone (used lengths.now) ≡ true }
    ensures { (result ≡ first_used lengths.now) × (result < length lengths.now) }
{
    for (entry, length) in lengths.iter().enumerate() {
        if *length != 0 {
            return entry;
        }
    }
    unreachable!()
}
