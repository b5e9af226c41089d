// Whether a table of floors that anyone hands in is the writing-out of floors that meet every rule.
ghost use Rattle.std.specs.Prelude.{◌≡◌, true, ◌↔◌, ◌+◌, ◌*◌, ◌≤◌, length, get_or, drop};
ghost use Rattle.reading.specs.Encoding.{Zeros, Encodes};
ghost use Rattle.floor.specs.Layout.{floor_width, floors_need, partitions_room, floor_row};
ghost use Rattle.floor.specs.Inner.Valid.{ValidFloor};
ghost use Rattle.floor_tables.specs.Inner.Parts.{ValidFloorRow, ValidPartitions, ValidClasses, ValidCount, ValidHead, DecidesRow};
ghost use Rattle.floor_tables.specs.Inner.Recognised.{FloorsRecognised};

use crate::below::are_below;
use crate::classes::are_classes;
use floor::{
    CLASS_WIDTH, CLASSES_PLACE, FLOOR_WIDTH, FLOORS_NEED, PARTITIONS_PLACE, RANGE_PLACE,
    X_LIST_PLACE, X_VALUES_PLACE,
};

// Whether the partitions of the floor at place `at` stand.
fn are_partitions(floors: &[u16], at: usize) -> bool
    requires { (at + floor_width ≤ floors_need) × (at + floor_width ≤ length floors.now) }
    ensures { (result ≡ true) ↔ ValidPartitions floors.now at }
{
    let count = floors[at] as usize;
    if 31 < count {
        return false;
    }
    let end = at + PARTITIONS_PLACE + count;
    if !are_below(&floors[at + PARTITIONS_PLACE..end], 16) {
        return false;
    }
    are_below(&floors[end..at + CLASSES_PLACE], 1)
}

// Whether its classes stand.
fn are_named(floors: &[u16], at: usize, book_count: usize) -> bool
    requires { (at + floor_width ≤ floors_need) × (book_count ≤ 256) × (at + floor_width ≤ length floors.now) }
    ensures { (result ≡ true) ↔ ValidClasses book_count floors.now at }
{
    let count = floors[at + 1] as usize;
    if 16 < count {
        return false;
    }
    if count
        != floor_row::counts::class_count(
            &floors[at + PARTITIONS_PLACE..at + CLASSES_PLACE],
            floors[at] as usize,
        )
    {
        return false;
    }
    if !are_classes(floors, at + CLASSES_PLACE, count, book_count) {
        return false;
    }
    are_below(
        &floors[at + CLASSES_PLACE + CLASS_WIDTH * count..at + X_LIST_PLACE],
        1,
    )
}

// Whether its count of X values stands.
fn is_counted(floors: &[u16], at: usize) -> bool
    requires { (at + floor_width ≤ floors_need) × (at + floor_width ≤ length floors.now) × (get_or floors.now at 0 ≤ partitions_room) }
    ensures { (result ≡ true) ↔ ValidCount floors.now at }
{
    let values = floors[at + 4] as usize;
    if 65 < values {
        return false;
    }
    if values < 2 {
        return false;
    }
    let read = floor_row::counts::value_count(
        &floors[at + PARTITIONS_PLACE..at + CLASSES_PLACE],
        floors[at] as usize,
        &floors[at + CLASSES_PLACE..at + X_LIST_PLACE],
    );
    values - 2 == read
}

// Whether its multiplier, range bits and count of X values stand.
fn is_head(floors: &[u16], at: usize) -> bool
    requires { (at + floor_width ≤ floors_need) × (at + floor_width ≤ length floors.now) × (get_or floors.now at 0 ≤ partitions_room) }
    ensures { (result ≡ true) ↔ ValidHead floors.now at }
{
    let multiplier = floors[at + 2];
    if multiplier < 1 {
        return false;
    }
    if 4 < multiplier {
        return false;
    }
    if 15 < floors[at + 3] {
        return false;
    }
    is_counted(floors, at)
}

// Whether its X list stands, and so its whole row where its other parts do.
fn is_list(floors: &[u16], at: usize) -> bool
    requires { (at + floor_width ≤ floors_need) × (at + floor_width ≤ length floors.now) × ValidHead floors.now at }
    ensures { DecidesRow result floors.now at }
{
    let range = 1 << floors[at + 3];
    let end = at + X_LIST_PLACE + floors[at + 4] as usize;
    if floors[at + X_LIST_PLACE] != 0 {
        return false;
    }
    if floors[at + RANGE_PLACE] as usize != range {
        return false;
    }
    if !are_below(&floors[at + X_VALUES_PLACE..end], range) {
        return false;
    }
    if !are_below(&floors[end..at + FLOOR_WIDTH], 1) {
        return false;
    }
    numbers::are_distinct(&floors[at + X_LIST_PLACE..end])
}

// Whether the row of a floor begins at place `at`.
fn is_floor(floors: &[u16], at: usize, book_count: usize) -> bool
    requires { (at + floor_width ≤ floors_need) × (book_count ≤ 256) × (at + floor_width ≤ length floors.now) }
    ensures { (result ≡ true) ↔ ValidFloorRow book_count floors.now at }
{
    if !are_partitions(floors, at) {
        return false;
    }
    if !are_named(floors, at, book_count) {
        return false;
    }
    if !is_head(floors, at) {
        return false;
    }
    is_list(floors, at)
}

// Whether the rows of `count` floors lie from the front on. What lies behind them is not looked at.
fn are_rows(floors: &[u16], count: usize, book_count: usize) -> bool
    requires { (count ≤ 64) × (book_count ≤ 256) × (floors_need ≤ length floors.now) }
    ensures { Encodes floor_row (ValidFloor book_count) count floors.now
        ↔ ((result ≡ true) × Zeros (drop (floor_width * count) floors.now)) }
{
    for f in 0..count {
        if !is_floor(floors, FLOOR_WIDTH * f, book_count) {
            return false;
        }
    }
    true
}

// Whether the table is the writing-out of `count` floors that are right for `book_count` codebooks, with zeros behind them.
pub fn are_floors(floors: &[u16], count: usize, book_count: u32) -> bool
    requires { (count ≤ 64) × (book_count ≤ 256) }
    ensures { (result ≡ true) ↔ FloorsRecognised book_count count floors.now }
{
    if floors.len() < FLOORS_NEED {
        return false;
    }
    if !are_rows(floors, count, book_count as usize) {
        return false;
    }
    reading::zeros::zeros(floors, FLOOR_WIDTH * count)
}
