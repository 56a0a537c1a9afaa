//! A plan worked by hand, and one that an independent program made.
use super::*;
use std::test::Fail;

fn read(key: u32) -> PlanCall {
    PlanCall {
        kind: Kind::Read,
        key,
        value: 0,
    }
}

fn write(key: u32, value: u32) -> PlanCall {
    PlanCall {
        kind: Kind::Write,
        key,
        value,
    }
}

#[test]
fn numbers_the_writes_of_two_clients(rt: HostRuntime) -> Result<(), Fail> {
    let settings = Settings {
        clients: 2,
        replicas: 1,
        calls: 2,
        keys: 1,
        read_quorum: 1,
        write_quorum: 1,
        writes: 100,
        seed: 0,
        shards: 1,
    };
    let plan = plan_of(rt.alloc(), &settings)?;
    let clients = plan.clients.as_slice();
    assert!(rt; clients.len() == 2);
    assert_eq!(rt;
        clients[0].as_slice(),
        [write(0, 1), write(0, 2)].as_slice()
    );
    assert_eq!(rt;
        clients[1].as_slice(),
        [write(0, 3), write(0, 4)].as_slice()
    );
    Ok(())
}

#[test]
fn plans_eight_calls_of_seed_one(rt: HostRuntime) -> Result<(), Fail> {
    let settings = Settings {
        clients: 2,
        replicas: 1,
        calls: 4,
        keys: 4,
        read_quorum: 1,
        write_quorum: 1,
        writes: 50,
        seed: 1,
        shards: 1,
    };
    let plan = plan_of(rt.alloc(), &settings)?;
    let clients = plan.clients.as_slice();
    assert!(rt; clients.len() == 2);
    let first = [read(2), write(0, 2), write(0, 3), read(0)];
    assert_eq!(rt; clients[0].as_slice(), first.as_slice());
    let second = [write(0, 5), write(0, 6), write(2, 7), write(0, 8)];
    assert_eq!(rt; clients[1].as_slice(), second.as_slice());
    Ok(())
}
