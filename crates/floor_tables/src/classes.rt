// Whether the rows of classes that are right for so many codebooks lie from a place on.
ghost use Rattle.std.specs.Prelude.{◌≡◌, true, ◌↔◌, ◌+◌, ◌*◌, ◌^◌, ◌≤◌, length, drop};
ghost use Rattle.std.proofs.Math.Seq.{slice};
ghost use Rattle.reading.specs.Encoding.{Zeros, Encodes};
ghost use Rattle.floor.specs.Layout.{class_width, subclass_books_room, class_row, classes_room, floors_need};
ghost use Rattle.floor.specs.Inner.Valid.{ValidClass};
ghost use Rattle.floor_tables.specs.Inner.Parts.{ValidClassRow, class_of_master, ValidBooks};

use crate::below::are_below;
use floor::CLASS_WIDTH;

// Whether there is a master book exactly where there are subclass bits, and it is set up.
fn is_master(book_count: usize, subclasses: usize, master: usize) -> bool
    requires { 2 ^ subclasses ≤ subclass_books_room }
    ensures { (result ≡ true) ↔ ValidClass book_count (class_of_master subclasses master) }
{
    if book_count < master {
        return false;
    }
    if subclasses == 0 {
        return master == 0;
    }
    1 <= master
}

// Whether the subclass books of a class lie from place `at` on, `count` of them, and zeros behind.
fn are_books(floors: &[u16], at: usize, book_count: usize, count: usize) -> bool
    requires { (at ≤ 65535) × (book_count ≤ 256) × (count ≤ subclass_books_room) × (at + subclass_books_room ≤ length floors.now) }
    ensures { (result ≡ true) ↔ ValidBooks book_count count (slice at (at + subclass_books_room) floors.now) }
{
    let books = &floors[at..at + count];
    if !are_below(books, book_count + 1) {
        return false;
    }
    if !are_below(books, 256) {
        return false;
    }
    are_below(&floors[at + count..at + 8], 1)
}

// Whether the row of a class begins at place `at`.
fn is_class(floors: &[u16], at: usize, book_count: usize) -> bool
    requires { (at + class_width ≤ 65535) × (book_count ≤ 256) × (at + class_width ≤ length floors.now) }
    ensures { (result ≡ true) ↔ ValidClassRow book_count floors.now at }
{
    let dimensions = floors[at];
    if dimensions < 1 {
        return false;
    }
    if 8 < dimensions {
        return false;
    }
    let subclasses = floors[at + 1] as usize;
    if 3 < subclasses {
        return false;
    }
    if !is_master(book_count, subclasses, floors[at + 2] as usize) {
        return false;
    }
    are_books(floors, at + 3, book_count, 1 << subclasses)
}

// Whether the rows of `count` classes lie from place `at` on. What lies behind them is not looked at.
pub fn are_classes(floors: &[u16], at: usize, count: usize, book_count: usize) -> bool
    requires { (at + classes_room ≤ floors_need) × (class_width * count ≤ classes_room) × (book_count ≤ 256) × (at + classes_room ≤ length floors.now) }
    ensures { Encodes class_row (ValidClass book_count) count (slice at (at + classes_room) floors.now)
        ↔ ((result ≡ true) × Zeros (drop (class_width * count) (slice at (at + classes_room) floors.now))) }
{
    for c in 0..count {
        if !is_class(floors, at + CLASS_WIDTH * c, book_count) {
            return false;
        }
    }
    true
}
