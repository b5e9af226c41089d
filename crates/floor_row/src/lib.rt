// The numbers of a floor, read from its row in the table: row number n begins at 277 * n. A place past the table's end reads as 0.
#![tactic(auto)]

pub mod counts; // how many classes and X values a floor has

ghost use Rattle.std.specs.Prelude.{◌≡◌, ◌+◌, ◌*◌, ◌<◌, get_or};
ghost use Rattle.floor.specs.Layout.{floor_width, partitions_place, classes_place, class_width};

use floor::{CLASS_WIDTH, CLASSES_PLACE, FLOOR_WIDTH, PARTITIONS_PLACE};
use reading::buffers;

// A floor's row in the table of floors: its number, and the table.
// `few`: a setup has at most 64 floors, so that the row's place in the table fits a usize.
#[derive(Clone, Copy)]
pub struct FloorRow<'a> {
    pub floors: &'a [u16],
    pub number: usize,
    pub ghost few: { number < 64 },
}

impl FloorRow<'_> {
    pub fn partition_count(self) -> u16
        ensures { result ≡ get_or self.entry.floors.now (floor_width * self.entry.number) 0 }
    {
        buffers::get(self.floors, FLOOR_WIDTH * self.number)
    }

    pub fn partition_class(self, partition: usize) -> u16
        requires { partition < 31 }
        ensures { result ≡ get_or self.entry.floors.now (floor_width * self.entry.number + partitions_place + partition) 0 }
    {
        buffers::get(
            self.floors,
            FLOOR_WIDTH * self.number + PARTITIONS_PLACE + partition,
        )
    }

    pub fn class_dimensions(self, class: usize) -> u16
        requires { class < 16 }
        ensures { result ≡ get_or self.entry.floors.now (floor_width * self.entry.number + classes_place + class_width * class) 0 }
    {
        buffers::get(
            self.floors,
            FLOOR_WIDTH * self.number + CLASSES_PLACE + CLASS_WIDTH * class,
        )
    }

    pub fn class_subclasses(self, class: usize) -> u16
        requires { class < 16 }
        ensures { result ≡ get_or self.entry.floors.now (floor_width * self.entry.number + classes_place + class_width * class + 1) 0 }
    {
        buffers::get(
            self.floors,
            FLOOR_WIDTH * self.number + CLASSES_PLACE + CLASS_WIDTH * class + 1,
        )
    }

    // The master book's number plus one; 0 where the class has none. No Option, here and below: it is the number that the row has.
    pub fn class_master(self, class: usize) -> u16
        requires { class < 16 }
        ensures { result ≡ get_or self.entry.floors.now (floor_width * self.entry.number + classes_place + class_width * class + 2) 0 }
    {
        buffers::get(
            self.floors,
            FLOOR_WIDTH * self.number + CLASSES_PLACE + CLASS_WIDTH * class + 2,
        )
    }

    // A subclass book's number plus one; 0 for none.
    pub fn subclass_book(self, class: usize, subclass: usize) -> u16
        requires { (class < 16) × (subclass < 8) }
        ensures { result ≡ get_or self.entry.floors.now (floor_width * self.entry.number + classes_place + class_width * class + 3 + subclass) 0 }
    {
        buffers::get(
            self.floors,
            FLOOR_WIDTH * self.number + CLASSES_PLACE + CLASS_WIDTH * class + 3 + subclass,
        )
    }

    pub fn multiplier(self) -> u16
        ensures { result ≡ get_or self.entry.floors.now (floor_width * self.entry.number + 2) 0 }
    {
        buffers::get(self.floors, FLOOR_WIDTH * self.number + 2)
    }

    // How many X values the floor has, the two implied ones included. They lie in the row from place 212 on.
    pub fn x_count(self) -> u16
        ensures { result ≡ get_or self.entry.floors.now (floor_width * self.entry.number + 4) 0 }
    {
        buffers::get(self.floors, FLOOR_WIDTH * self.number + 4)
    }
}
