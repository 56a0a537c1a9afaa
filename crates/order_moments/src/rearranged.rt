//! The operations of a key in the order of a verdict.
ghost use Rattle.std.specs.Prelude.{All, Contains, IfOk};
ghost use Rattle.stale_model.specs.Operations.{operations, records_of};
ghost use Rattle.stale_model.specs.Valid.{IsValidKey};
ghost use Rattle.stale_model.specs.Orders.{ListsEachOnce};
ghost use Rattle.stale_model.specs.Refutations.{IsOfRecord};
ghost use Rattle.order_moments.specs.InOrder.{AreInOrder, FinishFits};

use stale_model::{INITIAL_WRITE, KeyOps, Memory, Op};
use std::alloc::Global;

// The operation with this record, of those of a key and its initial write.
fn operation_of(key: &KeyOps, rec: u32) -> Op
    requires valid { IsValidKey key.now }
    requires known { Contains (records_of (operations key.now)) rec }
    ensures { IsOfRecord (operations key.now) rec result }
{
    if rec == 0 {
        return INITIAL_WRITE;
    }
    let ops = key.ops.as_slice();
    match ops.binary_search_by_key(&rec, |op| op.rec) {
        Ok(place) => ops[place],
        Err(_) => unreachable!(),
    }
}

/// All operations of a valid key, the initial write among them, in the order in which a verdict lists their records:
/// each record of the key once, and 0 for the initial write. Takes time n log n in the operations. The error is want of
/// memory.
pub fn in_order(alloc: Global, key: &KeyOps, order: &[u32]) -> Result<Vec<Op>, Memory>
    requires valid { IsValidKey key.now }
    requires each_once { ListsEachOnce (records_of (operations key.now)) order.now }
    ensures ordered { IfOk result
        (λ ordered. AreInOrder (operations key.now) order.now ordered.items) }
    ensures fit { IfOk result (λ ordered. All FinishFits ordered.items) }
{
    let mut ordered = Vec::with_capacity(alloc, order.len()).map_err(|_| Memory)?;
    for rec in order {
        ordered.push(operation_of(key, *rec)).map_err(|_| Memory)?;
    }
    Ok(ordered)
}
