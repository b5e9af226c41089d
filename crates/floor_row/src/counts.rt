// How many classes and X values a floor has, counted along its partitions (004, "header decode", steps 5, 6 and 18 to 22). The reader counts them in its
// buffers, the recogniser in the table. The partitions are no slice of `partition_count` numbers: a table that is not yet judged may count more than it has
// places for, which read as 0.
ghost use Rattle.std.specs.Prelude.{◌≡◌, ◌≤◌};
ghost use Rattle.floor.specs.Inner.Counts.{classes_to, values_to};

use floor::CLASS_WIDTH;
use reading::buffers;

// One more than the greatest class that the first `partition_count` partitions name; 0 where there is none.
pub fn class_count(partitions: &[u16], partition_count: usize) -> usize
    ensures { result ≡ classes_to partitions.now partition_count }
{
    let mut most: usize = 0;
    for i in 0..partition_count {
        most = most.max(buffers::get(partitions, i) as usize + 1);
    }
    most
}

// The dimensions of the first `partition_count` partitions' classes together.
pub fn value_count(partitions: &[u16], partition_count: usize, classes: &[u16]) -> usize
    requires { partition_count ≤ 31 }
    ensures { result ≡ values_to classes.now partitions.now partition_count }
{
    let mut sum: usize = 0;
    for i in 0..partition_count {
        let class = buffers::get(partitions, i) as usize;
        sum += buffers::get(classes, CLASS_WIDTH * class) as usize;
    }
    sum
}
