// One codebook in the tables against every rule: the fields before the lengths, the places, the lookup, the lengths with their codewords and their mark,
// the multiplicands.
ghost use Rattle.std.specs.Prelude.{◌≡◌, true, ◌↔◌, ◌+◌, ◌^◌, ◌<◌, ◌≤◌, ltb, length, take, drop};
ghost use Rattle.reading.specs.Lists.{all};
ghost use Rattle.codeword_assignment.specs.Book.{Coded, lone_mark};
ghost use Rattle.book.specs.Carried.{NoLookup, SomeLookup};
ghost use Rattle.book_tables.specs.Inner.Rules.{row_book, HeadRules, PlaceRules, LookupRules, BookRules, Begun};

use crate::row::Row;
use book_lookup::lookup::value_count;
use book_row::mark::lone_mark_at;
use codeword_assignment::book::are_codewords;
use limits::Limits;

// The dimensions and the number of entries (01, refusals 6 and 14). `entries` is how many the books before have.
fn is_head(limits: Limits, entries: u32, row: Row) -> bool
    requires { entries ≤ limits.entries }
    ensures { (result ≡ true) ↔ HeadRules limits entries row }
{
    1 <= row.dimensions
        && row.dimensions < 65536
        && 1 <= row.entries
        && row.entries < 16777216
        && row.entries <= limits.book_entries
        && row.entries <= limits.entries - entries
}

// Its entries and multiplicands begin where those of the books before end, within the limit.
fn is_placed(limits: Limits, entries: u32, values: u32, row: Row) -> bool
    requires { values ≤ limits.multiplicands }
    ensures { (result ≡ true) ↔ PlaceRules limits entries values row }
{
    row.first_entry == entries
        && row.first_value == values
        && row.count <= limits.multiplicands - values
}

// No lookup: zeros.
fn has_no_lookup(row: Row) -> bool
    ensures { (result ≡ true) ↔ NoLookup (row_book row) }
{
    row.minimum == 0 && row.delta == 0 && row.width == 0 && row.sequence == 0 && row.count == 0
}

// A lookup with multiplicands: their number is what its type, entries and dimensions say.
fn is_valued(row: Row) -> bool
    ensures { (result ≡ true) ↔ SomeLookup (row_book row) }
{
    1 <= row.width
        && row.width <= 16
        && row.sequence <= 1
        && row.count as u64 == value_count(row.lookup, row.entries, row.dimensions)
}

fn is_lookup(row: Row) -> bool
    ensures { (result ≡ true) ↔ LookupRules row }
{
    match row.lookup {
        0 => has_no_lookup(row),
        1 | 2 => is_valued(row),
        _ => false,
    }
}

// The lengths from `first` on are accepted (01, refusals 7 and 8), and the words there are their codewords.
fn is_coded(lengths: &[u8], codewords: &[u32], first: u32, count: u32) -> bool
    requires { (first + count ≤ length lengths.now) × (first + count ≤ length codewords.now) }
    ensures { (result ≡ true) ↔ Coded (take count (drop first lengths.now)) (take count (drop first codewords.now)) }
{
    let start = first as usize;
    let end = start + count as usize;
    are_codewords(&lengths[start..end], &codewords[start..end])
}

// The row names the sole used entry of length 1 of the lengths from `first` on, or none where they have none.
fn is_marked(lengths: &[u8], first: u32, row: Row) -> bool
    requires { first + row.entries ≤ length lengths.now }
    ensures { (result ≡ true) ↔ (row.lone ≡ lone_mark (take row.entries (drop first lengths.now))) }
{
    let mark = lone_mark_at(lengths, first, row.entries);
    row.lone == mark
}

// Every multiplicand has no more than `width` bits.
fn are_narrow(part: &[u16], width: u32) -> bool
    requires { width < 32 }
    ensures { result ≡ all (λ v. ltb v (2 ^ width)) part.now }
{
    let bound = 1u32 << width;
    part.iter()
        .all(|&multiplicand| (multiplicand as u32) < bound)
}

// The same of `count` multiplicands from `first` on.
fn is_fit(multiplicands: &[u16], first: u32, count: u32, width: u32) -> bool
    requires { (first + count ≤ length multiplicands.now) × (width < 32) }
    ensures { result ≡ all (λ v. ltb v (2 ^ width)) (take count (drop first multiplicands.now)) }
{
    let start = first as usize;
    let end = start + count as usize;
    are_narrow(&multiplicands[start..end], width)
}

// The book of a row, behind books of so many entries and multiplicands.
#[tactic(auto, using(crate::proofs::Written::book_parts))]
pub fn is_book(
    limits: Limits,
    entries: u32,
    values: u32,
    row: Row,
    lengths: &[u8],
    codewords: &[u32],
    multiplicands: &[u16],
) -> bool
    requires { Begun limits entries values lengths.now codewords.now multiplicands.now }
    ensures { (result ≡ true) ↔ BookRules limits entries values row
        (drop entries lengths.now) (drop entries codewords.now) (drop values multiplicands.now) }
{
    is_head(limits, entries, row)
        && is_placed(limits, entries, values, row)
        && is_lookup(row)
        && is_coded(lengths, codewords, entries, row.entries)
        && is_marked(lengths, entries, row)
        && is_fit(multiplicands, values, row.count, row.width)
}
