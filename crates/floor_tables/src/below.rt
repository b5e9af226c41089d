// Numbers of a table of floors that lie below a limit.
ghost use Rattle.std.specs.Prelude.{◌≡◌, ltb};
ghost use Rattle.reading.specs.Lists.{all};

// Whether every number is below the limit.
pub fn are_below(numbers: &[u16], limit: usize) -> bool
    ensures { result ≡ all (λ v. ltb v limit) numbers.now }
{
    numbers.iter().all(|&number| (number as usize) < limit)
}
