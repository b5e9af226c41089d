// How many multiplicands a lookup of type 1 has (002; 000, section 9.2.3).
ghost use Rattle.std.specs.Prelude.{◌≡◌};
ghost use Rattle.book.specs.LookupReading.{lookup1_values};

use power::power_within;

// The greatest number whose power by the dimensions is not above the entries, found by halving.
pub fn lookup1_values(entries: u32, dimensions: u32) -> u32
    ensures { result ≡ lookup1_values entries dimensions }
{
    let mut low: u32 = 0;
    let mut high = entries;
    // Each turn halves what is left: there is no range to count by.
    while low < high {
        let middle = high - (high - low) / 2;
        if power_within(middle, dimensions, entries) {
            low = middle;
        } else {
            high = middle - 1;
        }
    }
    low
}
