// Places of a lent output that hold what an earlier packet left: from one on, up to another.
ghost use Rattle.std.specs.Prelude.{◌≡◌, ◌-◌, replicate};
ghost use Rattle.std.proofs.lemmas.List.Edits.{sets};

use reading::buffers::clear;
use reading::number::Number;

// The places from `from` up to `to`, as far as there are.
pub fn clear_between<T: Number>(buffer: &mut [T], from: usize, to: usize)
    ensures { buffer.new ≡ sets buffer.old from (replicate (to - from) T.ZERO) }
{
    if buffer.len() <= from {
        return;
    }
    let count = to.saturating_sub(from).min(buffer.len() - from);
    clear(&mut buffer[from..from + count]);
}
