// A residue's plan, 64 classes by 8 passes at the most: reading it, and writing it to the table of plans (001, "header decode", the list of book numbers).
ghost use Rattle.std.specs.Prelude.{◌≡◌, ◌≤◌};
ghost use Rattle.std.proofs.lemmas.List.Edits.{sets};
ghost use Rattle.reading.specs.Lists.{rows};
ghost use Rattle.bits.specs.Inner.Cursors.{position, outcome};
ghost use Rattle.residue.specs.Reading.{plan_book, plan_row};
ghost use Rattle.residue.specs.Layout.{plans_need};
ghost use Rattle.residue.specs.Inner.Plans.{Grid};

use bits::Cursor;
use bits::refusal::{Reason, Refusal};

// A place of the plan: a book's number plus one where the pass's bit is set, else 0. No Option: it is the number that goes into the table.
// A class's master book (floor_class) is read likewise, by another definition and in a crate that does not stand below this one.
pub fn read_place(
    packet: &[u8],
    from: Cursor,
    book_count: u32,
    bit: u32,
) -> Result<(u32, Cursor), Refusal>
    ensures { outcome result ≡ plan_book book_count bit packet.now (position from) }
{
    if bit == 0 {
        return Ok((0, from));
    }
    let (book, next) = from.field(packet, 8)?;
    if book_count <= book {
        return Err(Refusal {
            reason: Reason::NotSetUp,
            place: from,
        });
    }
    Ok((book + 1, next))
}

// A class's row of the plan.
pub fn read_row(
    packet: &[u8],
    from: Cursor,
    book_count: u32,
    cascade: u32,
) -> Result<([u16; 8], Cursor), Refusal>
    ensures { outcome result ≡ plan_row book_count cascade packet.now (position from) }
{
    let mut books = [0u16; 8];
    let mut at = from;
    for j in 0..8 {
        let (book, next) = read_place(packet, at, book_count, (cascade >> j) % 2)?;
        books[j] = book as u16;
        at = next;
    }
    Ok((books, at))
}

// The plan goes to the 512 places from `at` on, class after class.
pub fn write_plan(plans: &mut [u16], at: usize, plan: [[u16; 8]; 64])
    requires { (at ≤ plans_need) × Grid plan }
    ensures { plans.new ≡ sets plans.old at (rows (λ row. row) plan) }
{
    for i in 0..64 {
        reading::buffers::write(plans, at + 8 * i, &plan[i]);
    }
}
