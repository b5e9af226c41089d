// Whether a lent buffer holds zeros alone from a place on. All numbers are joined, which is tested once: a loop without a way out takes many numbers a step.
ghost use Rattle.std.specs.Prelude.{true, ◌↔◌, ◌≡◌, drop};
ghost use Rattle.reading.specs.Encoding.{AllAre};

use crate::number::Number;

pub fn zeros<T: Number>(buffer: &[T], from: usize) -> bool
    ensures { (result ≡ true) ↔ AllAre T.ZERO (drop from buffer.now) }
{
    if buffer.len() <= from {
        return true;
    }
    let mut any = T::ZERO;
    for number in &buffer[from..] {
        any = any.join(*number);
    }
    any.is_zero()
}
