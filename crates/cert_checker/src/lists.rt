//! Lists that are filled anew for each key, and keep their room from one key to the next.
ghost use Rattle.std.specs.Prelude.{◌≡◌, OnOk, length, replicate};

use stale_model::Memory;

/// Makes a list so many times this value, whatever was in it before.
pub(crate) fn refill<T: Copy>(list: &mut Vec<T>, count: usize, value: T) -> Result<(), Memory>
    ensures items { OnOk result (list.new.items ≡ replicate count value) }
    ensures size { OnOk result (length list.new.items ≡ count) }
{
    list.clear();
    list.resize(count, value).map_err(|_| Memory)
}
