//! Whether an order and a refutation show the least Δ for 2-atomicity.

ghost use Rattle.std.specs.Prelude.{◌↔◌, IfOk, IsTrue};
ghost use Rattle.std.specs.Option.{option_copied};
ghost use Rattle.stale_model.specs.Operations.{operations};
ghost use Rattle.stale_model.specs.Valid.{IsValidKey};
ghost use Rattle.stale_model.specs.Faults.{IsMatchedKey};
ghost use Rattle.two_delta.specs.LeastTwos.{RefutationShows, ShowsLeastTwo};

use cert_checker::{Found, check_order, check_refutation_at};
use stale_model::{KeyOps, Memory, Refutation};
use std::alloc::Global;

// Whether nothing is less than delta, or the refutation holds at delta - 1.
fn none_below(
    alloc: Global,
    key: &KeyOps,
    delta: u64,
    refutation: Option<&Refutation>,
) -> Result<bool, Memory>
    requires valid { IsValidKey key.now }
    requires matched { IsMatchedKey (operations key.now) }
    ensures { IfOk result (λ shows. IsTrue shows ↔ RefutationShows (operations key.now) delta (option_copied refutation.entry)) }
{
    match refutation {
        None => Ok(delta == 0),
        Some(_) if delta == 0 => Ok(false),
        Some(refutation) => match check_refutation_at(alloc, delta - 1, key, refutation)? {
            Found::Good => Ok(true),
            Found::Bad { .. } => Ok(false),
        },
    }
}

/// Whether `order` and `refutation` show that `delta` is the least d at which the key is 2-atomic where reads are taken
/// to start d ticks earlier: `order` is a list of the records of all operations, which is an order of them at `delta` in
/// which each read returns one of the last two writes; and either `delta` is 0 and there is no refutation, or the
/// refutation holds at `delta` - 1. For a valid key that is neither duplicate nor unmatched; where a read finished
/// before its write started, there is no such order, and the answer is `false`. It looks at precedence and at orders
/// alone.
///
/// # Errors
/// `Memory` where memory ran out.
pub fn check_two(
    alloc: Global,
    key: &KeyOps,
    delta: u64,
    order: &[u32],
    refutation: Option<&Refutation>,
) -> Result<bool, Memory>
    requires valid { IsValidKey key.now }
    requires matched { IsMatchedKey (operations key.now) }
    ensures { IfOk result (λ good. IsTrue good ↔ ShowsLeastTwo (operations key.now) delta order.now (option_copied refutation.entry)) }
{
    match check_order(alloc, delta, 2, key, order)? {
        Found::Good => none_below(alloc, key, delta, refutation),
        Found::Bad { .. } => Ok(false),
    }
}
