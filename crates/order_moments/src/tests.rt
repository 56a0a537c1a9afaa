//! That the calls succeed where memory is ample.
ghost use Rattle.std.specs.Prelude.{◌≡◌, ◌∷◌, [], IfOk};
ghost use Rattle.stale_model.specs.Valid.{IsValidKey};
ghost use Rattle.stale_model.specs.Operations.{operations, records_of};
ghost use Rattle.stale_model.specs.Orders.{ListsEachOnce};

use super::*;
use stale_model::{Bytes, INITIAL_WRITE, KeyOps, List, Memory, Op};
use std::alloc::Global;
use std::test::Fail;

// A key with one write, from 5 to 9.
fn one_write(alloc: Global) -> Result<KeyOps, Memory>
    ensures valid { IfOk result IsValidKey }
    ensures records { IfOk result (λ key. records_of (operations key) ≡ 0 ∷ 1 ∷ []) }
{
    let write = Op {
        rec: 1,
        value: 1,
        start: 5,
        finish: 9,
        ..INITIAL_WRITE
    };
    let value = Bytes::of(alloc, b"a".as_slice())?;
    Ok(KeyOps {
        name: Bytes::of(alloc, b"k".as_slice())?,
        values: List::from_vec(vec![in alloc; value].map_err(|_| Memory)?),
        ops: List::from_vec(vec![in alloc; write].map_err(|_| Memory)?),
    })
}

// The records in an order of that key.
fn its_order() -> [u32; 2]
    ensures { ListsEachOnce (0 ∷ 1 ∷ []) result }
{
    [0, 1]
}

#[test]
fn a_key_in_order(rt: HostRuntime) -> Result<(), Fail> {
    let key = one_write(rt.alloc())?;
    let order = its_order();
    let ordered = in_order(rt.alloc(), &key, order.as_slice())?;
    assert_eq!(rt; ordered.len(), 2);
    let moments = moments(rt.alloc(), &ordered)?;
    assert_eq!(rt; moments.as_slice(), [0, 5].as_slice());
    Ok(())
}

#[test]
fn no_operations(rt: HostRuntime) -> Result<(), Fail> {
    let none: [Op; 0] = [];
    assert_eq!(rt; moments(rt.alloc(), none.as_slice())?.len(), 0);
    Ok(())
}
