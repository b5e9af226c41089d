// Lent buffers of numbers of any width: cleared whole, stored into and read from at any index, written with a run of numbers.
// No call has a condition: a store past the end stores nothing, a read past the end reads zero.
ghost use Rattle.std.specs.Prelude.{◌≡◌, length, replicate, set, get_or};
ghost use Rattle.std.proofs.lemmas.List.Edits.{sets};

use crate::number::Number;

pub fn clear<T: Number>(buffer: &mut [T])
    ensures { buffer.new ≡ replicate (length buffer.old) T.ZERO }
{
    for place in buffer.iter_mut() {
        *place = T::ZERO;
    }
}

pub fn put<T: Number>(buffer: &mut [T], index: usize, value: T)
    ensures { buffer.new ≡ set buffer.old index value }
{
    if index < buffer.len() {
        buffer[index] = value;
    }
}

pub fn get<T: Number>(buffer: &[T], index: usize) -> T
    ensures { result ≡ get_or buffer.now index T.ZERO }
{
    buffer.get(index).copied().unwrap_or(T::ZERO)
}

// As many of the values as there are places for.
pub fn write<T: Number>(buffer: &mut [T], at: usize, values: &[T])
    ensures { buffer.new ≡ sets buffer.old at values.now }
{
    if buffer.len() <= at {
        return;
    }
    let count = values.len().min(buffer.len() - at);
    buffer[at..at + count].copy_from_slice(&values[..count]);
}
