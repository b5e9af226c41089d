// Floors of type 1: what one is, with its partition classes and its X list, its rules, how it is read, its row in the tables. Definitions and laws; the constants
// of the layout.
#![tactic(auto)]

// The width of a floor's row in the table, the table's fixed need, where its parts begin, and how many places partitions and classes have (specs/Layout.antt).
pub const FLOOR_WIDTH: usize = 277;

pub const FLOORS_NEED: usize = 64 * FLOOR_WIDTH;

pub const PARTITIONS_PLACE: usize = 5;

pub const CLASSES_PLACE: usize = 36;

pub const X_LIST_PLACE: usize = 212;

pub const RANGE_PLACE: usize = 213;

pub const X_VALUES_PLACE: usize = 214;

pub const PARTITIONS_ROOM: usize = 31;

pub const CLASSES_ROOM: usize = 176;

// The width of a class's row within it, and how many places the X list has.
pub const CLASS_WIDTH: usize = 11;

pub const X_LIST_ROOM: usize = 65;
