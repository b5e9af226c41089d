// Reading residues into the tables (003, 4.2.4, "Residues"; 001, "header decode"; 01, refusals 11 and 13).
#![tactic(auto)]

pub mod head; // the fields before the plan
pub mod cascade; // which passes each class has a book for
pub mod plan; // the plan: which book each class has at each pass

ghost use Rattle.std.specs.Prelude.{◌≡◌, ◌+◌, ◌≤◌, length, take};
ghost use Rattle.std.proofs.lemmas.List.Edits.{sets};
ghost use Rattle.reading.specs.Reader.{many, into, into1};
ghost use Rattle.bits.specs.Inner.Cursors.{position, Wrote};
ghost use Rattle.residue.specs.Reading.{residue, residue_from};
ghost use Rattle.residue.specs.Layout.{put_residue};
ghost use Rattle.residue.specs.Inner.FromTable.{books_of};
ghost use Rattle.residue.specs.Inner.Heads.{head_of, head_numbers};
ghost use Rattle.residue.specs.Inner.Plans.{tables_at};
ghost use Rattle.residue.specs.Inner.Valid.{AcceptedValid};

use bits::Cursor;
use bits::refusal::{Reason, Refusal};
use residue::head::Head;
use residue::{HEAD_WIDTH, PLAN_WIDTH};

fn write_head(residues: &mut [u32], at: usize, head: Head)
    ensures { residues.new ≡ sets residues.old at (head_numbers (head_of head)) }
{
    let row = [
        head.kind,
        head.begin,
        head.end,
        head.size,
        head.classifications,
        head.classbook,
    ];
    reading::buffers::write(residues, at, &row);
}

// The plan of a residue whose other fields and cascades were read: it is read whole, judged (13, at the residue's type) and written with them.
fn read_plan(
    packet: &[u8],
    from: Cursor,
    book_count: u32,
    head: Head,
    cascades: [u32; 64],
    place: Cursor,
    books: &[u32],
    residues: &mut [u32],
    plans: &mut [u16],
    index: usize,
) -> Result<Cursor, Refusal>
    requires { (index ≤ 63) × (head.classifications ≤ 64) × (length cascades ≡ 64) }
    ensures { Wrote (into1 put_residue
        (residue_from (books_of book_count books.now) (position place) (head_of head) (take head.classifications cascades)
        packet.now (position from))
        (tables_at residues.old plans.old index))
        result (tables_at residues.new plans.new (index + 1)) }
{
    let classes = head.classifications as usize;
    let empty = [0u16; 8];
    let mut plan = [empty; 64];
    let mut at = from;
    for i in 0..classes {
        let (row, next) = plan::read_row(packet, at, book_count, cascades[i])?; // a book number's refusal comes before rule 13
        plan[i] = row;
        at = next;
    }
    if !residue::fits::head_fits(head, books) {
        return Err(Refusal {
            reason: Reason::Residue,
            place,
        });
    }
    if !residue::fits::plan_fits(&plan[..classes], head.size, books) {
        return Err(Refusal {
            reason: Reason::Residue,
            place,
        });
    }
    write_head(residues, HEAD_WIDTH * index, head);
    plan::write_plan(plans, PLAN_WIDTH * index, plan);
    Ok(at)
}

// A residue, written as number `index` of the tables.
pub fn read_residue(
    packet: &[u8],
    from: Cursor,
    book_count: u32,
    books: &[u32],
    residues: &mut [u32],
    plans: &mut [u16],
    index: usize,
) -> Result<Cursor, Refusal>
    requires { index ≤ 63 }
    ensures { Wrote (into1 put_residue (residue (books_of book_count books.now) packet.now (position from))
        (tables_at residues.old plans.old index))
        result (tables_at residues.new plans.new (index + 1)) }
{
    let (head, at_cascades) = head::read_head(packet, from, book_count)?;
    let (cascades, at_plan) = cascade::read_cascades(
        packet,
        at_cascades,
        head.classifications as usize,
    )?;
    read_plan(
        packet, at_plan, book_count, head, cascades, from, books, residues, plans, index,
    )
}

// `n` residues, from the front of the tables on.
pub fn read_residues(
    packet: &[u8],
    from: Cursor,
    book_count: u32,
    books: &[u32],
    residues: &mut [u32],
    plans: &mut [u16],
    n: usize,
) -> Result<Cursor, Refusal>
    requires { n ≤ 64 }
    ensures wrote { Wrote (into put_residue (many (residue (books_of book_count books.now)) n packet.now (position from))
        (tables_at residues.old plans.old 0))
        result (tables_at residues.new plans.new n) }
    ensures accepted_valid { AcceptedValid (books_of book_count books.now) n packet.now (position from) }
{
    let mut at = from;
    for i in 0..n {
        at = read_residue(packet, at, book_count, books, residues, plans, i)?;
    }
    Ok(at)
}
