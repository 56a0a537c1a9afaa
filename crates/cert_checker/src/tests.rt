//! Certificates worked by hand, with one number changed.
ghost use Rattle.std.specs.Prelude.{◌≡◌, ◌≤◌, [], ◌∷◌, length, IfOk};
ghost use Rattle.stale_model.specs.Operations.{operations};
ghost use Rattle.stale_model.specs.Valid.{IsValidKey};
ghost use Rattle.stale_model.specs.Faults.{IsMatchedKey};

use super::*;
use stale_model::{Bytes, End, Four, KeyOps, Kind, List, Memory, Op, Refutation, Try};
use std::alloc::Global;
use std::test::Fail;

const FIRST: Op = Op {
    rec: 1,
    client: 0,
    kind: Kind::Write,
    value: 1,
    start: 1,
    finish: 2,
    slack: 0,
};

const SECOND: Op = Op {
    rec: 2,
    client: 0,
    kind: Kind::Write,
    value: 2,
    start: 3,
    finish: 4,
    slack: 0,
};

const STALE: Op = Op {
    rec: 3,
    client: 0,
    kind: Kind::Read,
    value: 1,
    start: 7,
    finish: 9,
    slack: 0,
};

const ABSENT: Op = Op {
    rec: 3,
    client: 0,
    kind: Kind::Read,
    value: 0,
    start: 7,
    finish: 9,
    slack: 0,
};

fn ops_with(alloc: Global, read: Op) -> Result<Vec<Op>, Memory>
    ensures { IfOk result (λ ops. ops.items ≡ FIRST ∷ SECOND ∷ read ∷ []) }
{
    let mut ops = Vec::new(alloc);
    ops.extend_from_slice(&[FIRST, SECOND, read])
        .map_err(|_| Memory)?;
    Ok(ops)
}

fn two_values(alloc: Global) -> Result<Vec<Bytes>, Memory>
    ensures { IfOk result (λ values. length values.items ≡ 2) }
{
    let first = Bytes::of(alloc, &[97])?;
    let second = Bytes::of(alloc, &[98])?;
    let mut values = Vec::new(alloc);
    values.push(first).map_err(|_| Memory)?;
    values.push(second).map_err(|_| Memory)?;
    Ok(values)
}

// Two writes, and a read of the first that starts three ticks after the second has finished.
fn stale_key(alloc: Global) -> Result<KeyOps, Memory>
    ensures valid { IfOk result IsValidKey }
    ensures matched { IfOk result (λ key. IsMatchedKey (operations key)) }
{
    let name = Bytes::of(alloc, &[107])?;
    let values = two_values(alloc)?;
    let ops = ops_with(alloc, STALE)?;
    Ok(KeyOps {
        name,
        values: List::from_vec(values),
        ops: List::from_vec(ops),
    })
}

// Two writes, and a read of the absent value after both.
fn absent_key(alloc: Global) -> Result<KeyOps, Memory>
    ensures valid { IfOk result IsValidKey }
    ensures matched { IfOk result (λ key. IsMatchedKey (operations key)) }
{
    let name = Bytes::of(alloc, &[107])?;
    let values = two_values(alloc)?;
    let ops = ops_with(alloc, ABSENT)?;
    Ok(KeyOps {
        name,
        values: List::from_vec(values),
        ops: List::from_vec(ops),
    })
}

fn records(alloc: Global, records: &[u32]) -> Result<List<u32>, Memory> {
    let mut items = Vec::new(alloc);
    items.extend_from_slice(records).map_err(|_| Memory)?;
    Ok(List::from_vec(items))
}

// The members 0, 1 and 2, each with its try; the end of the last one is this.
fn refutation_with(alloc: Global, end: End) -> Result<Refutation, Memory> {
    let initial = Try {
        chain: records(alloc, &[0])?,
        end: End::Hard { p: 0, u: 1 },
    };
    let first = Try {
        chain: records(alloc, &[1])?,
        end: End::Hard { p: 1, u: 2 },
    };
    let second = Try {
        chain: records(alloc, &[2, 0])?,
        end,
    };
    let mut tries = Vec::new(alloc);
    tries.push(initial).map_err(|_| Memory)?;
    tries.push(first).map_err(|_| Memory)?;
    tries.push(second).map_err(|_| Memory)?;
    Ok(Refutation {
        stuck: records(alloc, &[0, 1, 2])?,
        tries: List::from_vec(tries),
    })
}

// The answer for the refutation with this end.
fn of_end(rt: &HostRuntime, end: End) -> Result<Found, Fail> {
    let key = absent_key(rt.alloc())?;
    let refutation = refutation_with(rt.alloc(), end)?;
    Ok(check_refutation(rt.alloc(), &key, &refutation)?)
}

// The answer for these members without a try.
fn of_members(rt: &HostRuntime, stuck: &[u32]) -> Result<Found, Fail> {
    let key = absent_key(rt.alloc())?;
    let refutation = Refutation {
        stuck: records(rt.alloc(), stuck)?,
        tries: List::from_vec(Vec::new(rt.alloc())),
    };
    Ok(check_refutation(rt.alloc(), &key, &refutation)?)
}

// The answer for an order of the stale key.
fn of_order(rt: &HostRuntime, d: u64, k: u32, order: &[u32]) -> Result<Found, Fail>
    requires { 1 ≤ k }
{
    let key = stale_key(rt.alloc())?;
    Ok(check_order(rt.alloc(), d, k, &key, order)?)
}

#[test]
fn orders_of_a_stale_read(rt: HostRuntime) -> Result<(), Fail> {
    assert_eq!(rt; of_order(&rt, 3, 1, &[0, 1, 3, 2])?, Found::Good);
    assert_eq!(rt; of_order(&rt, 0, 2, &[0, 1, 2, 3])?, Found::Good);
    Ok(())
}

#[test]
fn orders_with_one_number_changed(rt: HostRuntime) -> Result<(), Fail> {
    assert_eq!(rt;
        of_order(&rt, 0, 1, &[0, 1, 3, 2])?,
        Found::Bad { rule: 3, rec: 2 }
    );
    assert_eq!(rt;
        of_order(&rt, 5, 1, &[0, 2, 3, 1])?,
        Found::Bad { rule: 3, rec: 1 }
    );
    let stranger = of_order(&rt, 3, 1, &[0, 1, 3, 2, u32::MAX])?;
    assert_eq!(rt;
        stranger,
        Found::Bad {
            rule: 2,
            rec: u32::MAX
        }
    );
    assert_eq!(rt;
        of_order(&rt, 0, 2, &[0, 1, 2])?,
        Found::Bad { rule: 2, rec: 3 }
    );
    assert_eq!(rt;
        of_order(&rt, 3, 1, &[0, 1, 2, 3])?,
        Found::Bad { rule: 4, rec: 3 }
    );
    Ok(())
}

#[test]
fn four_records_of_a_stale_read(rt: HostRuntime) -> Result<(), Fail> {
    let key = stale_key(rt.alloc())?;
    let four = Four {
        p: 1,
        q: 2,
        q2: 2,
        p2: 3,
    };
    assert_eq!(rt; check_four(2, &key, &four), Found::Good);
    assert_eq!(rt;
        check_four(u64::MAX - 1, &key, &four),
        Found::Bad { rule: 5, rec: 1 }
    );
    Ok(())
}

#[test]
fn refutation_of_a_read_of_the_third_last_write(rt: HostRuntime) -> Result<(), Fail> {
    assert_eq!(rt; of_end(&rt, End::Hard { p: 0, u: 1 })?, Found::Good);
    let placed = of_end(&rt, End::Hard { p: 0, u: 2 })?;
    assert_eq!(rt; placed, Found::Bad { rule: 9, rec: 2 });
    let other = of_end(&rt, End::Hard { p: 1, u: 1 })?;
    assert_eq!(rt; other, Found::Bad { rule: 9, rec: 2 });
    let soft = of_end(&rt, End::Soft { p: 0, q: 1, q2: 1 })?;
    assert_eq!(rt; soft, Found::Bad { rule: 9, rec: 2 });
    Ok(())
}

#[test]
fn refutation_up_to_two_ticks(rt: HostRuntime) -> Result<(), Fail> {
    let key = absent_key(rt.alloc())?;
    let refutation = refutation_with(rt.alloc(), End::Hard { p: 0, u: 1 })?;
    let at_two = check_refutation_at(rt.alloc(), 2, &key, &refutation)?;
    assert_eq!(rt; at_two, Found::Good);
    let at_three = check_refutation_at(rt.alloc(), 3, &key, &refutation)?;
    assert_eq!(rt; at_three, Found::Bad { rule: 9, rec: 2 });
    Ok(())
}

#[test]
fn members_that_show_nothing(rt: HostRuntime) -> Result<(), Fail> {
    assert_eq!(rt; of_members(&rt, &[])?, Found::Bad { rule: 9, rec: 0 });
    assert_eq!(rt; of_members(&rt, &[1])?, Found::Bad { rule: 9, rec: 0 });
    assert_eq!(rt; of_members(&rt, &[1, 3])?, Found::Bad { rule: 9, rec: 3 });
    assert_eq!(rt;
        of_members(&rt, &[1, 2, 1])?,
        Found::Bad { rule: 9, rec: 1 }
    );
    Ok(())
}
