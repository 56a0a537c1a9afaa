//! What a replica answers to three requests, worked by hand.
ghost use Rattle.std.specs.Prelude.{◌≡◌, ◌+◌, ◌<◌, ◌≤◌};

use crate::{Ask, Memory, Replica, Reply, Request};
use std::alloc::Global;
use std::test::Fail;
use ticket_clock::{Clock, Seat};

// A read of the key.
fn read(key: u32, start: u64) -> Request
    ensures { (result.key ≡ key) × (result.start ≡ start) }
{
    Request {
        client: 0,
        seq: 1,
        start,
        key,
        ask: Ask::Read,
    }
}

// A write of the value on the key 0.
fn write(start: u64, value: u32) -> Request
    ensures { (result.key ≡ 0) × (result.start ≡ start) }
{
    Request {
        client: 1,
        seq: 1,
        start,
        key: 0,
        ask: Ask::Write { value },
    }
}

// A repair of the key 0 to the stamp and the value.
fn repair(start: u64, stamp: u64, value: u32) -> Request
    ensures { (result.key ≡ 0) × (result.start ≡ start) }
{
    Request {
        client: 2,
        seq: 1,
        start,
        key: 0,
        ask: Ask::Repair { stamp, value },
    }
}

// Draws six tickets.
fn draw_six(clock: &Clock, mut seat: Seat) -> Seat
    requires own { seat.clock ≡ clock.now.id }
    requires left { 6 ≤ seat.left }
    requires seen { 1 ≤ seat.seen }
    ensures own { result.clock ≡ seat.clock }
    ensures left { result.left + 6 ≡ seat.left }
    ensures seen { 7 ≤ result.seen }
{
    for _drawn in 0..6u64 {
        clock.draw(&mut seat);
    }
    seat
}

// Serves three requests after six tickets, at a replica of as many keys and three places. The serve
// ticket, the stamp and the value of each reply.
fn three_served(
    alloc: Global,
    keys: u32,
    first: Request,
    second: Request,
    third: Request,
) -> Result<[(u64, u64, u32); 3], Memory>
    requires keys { (first.key < keys) × (second.key < keys) × (third.key < keys) }
    requires starts { (first.start ≤ 6) × (second.start ≤ 6) × (third.start ≤ 6) }
{
    let (clock, seat) = Clock::new(alloc, 9)?;
    let mut replica = Replica::prepare(alloc, 0, keys, 3)?;
    let mut seat = draw_six(&clock, seat);
    let first = replica.serve(&clock, &mut seat, first);
    let second = replica.serve(&clock, &mut seat, second);
    let third = replica.serve(&clock, &mut seat, third);
    let replies = [pair(&first), pair(&second), pair(&third)];
    Ok(replies)
}

// The serve ticket, the stamp and the value of a reply.
fn pair(reply: &Reply) -> (u64, u64, u32) {
    (reply.serve, reply.stamp, reply.value)
}

#[test]
fn the_greater_stamp_stays_though_it_came_first(rt: HostRuntime) -> Result<(), Fail> {
    let served = three_served(rt.alloc(), 1, write(5, 2), write(3, 1), read(0, 6));
    let Ok(replies) = served else {
        panic!(rt; "memory")
    };
    assert_eq!(rt; replies, [(7, 5, 2), (8, 3, 1), (9, 5, 2)]);
    Ok(())
}

#[test]
fn a_repair_with_a_lesser_stamp_changes_nothing(rt: HostRuntime) -> Result<(), Fail> {
    let served = three_served(rt.alloc(), 1, write(5, 2), repair(6, 3, 1), read(0, 4));
    let Ok(replies) = served else {
        panic!(rt; "memory")
    };
    assert_eq!(rt; replies, [(7, 5, 2), (8, 3, 1), (9, 5, 2)]);
    Ok(())
}

#[test]
fn a_key_that_nobody_wrote_has_the_initial_value(rt: HostRuntime) -> Result<(), Fail> {
    let served = three_served(rt.alloc(), 2, write(5, 2), read(0, 6), read(1, 6));
    let Ok(replies) = served else {
        panic!(rt; "memory")
    };
    assert_eq!(rt; replies, [(7, 5, 2), (8, 5, 2), (9, 0, 0)]);
    Ok(())
}

#[test]
fn of_two_writes_with_one_stamp_the_first_stays(rt: HostRuntime) -> Result<(), Fail> {
    let served = three_served(rt.alloc(), 1, write(5, 2), write(5, 1), read(0, 6));
    let Ok(replies) = served else {
        panic!(rt; "memory")
    };
    assert_eq!(rt; replies, [(7, 5, 2), (8, 5, 1), (9, 5, 2)]);
    Ok(())
}

#[test]
fn what_was_served_is_in_the_journal(rt: HostRuntime) -> Result<(), Fail> {
    let Ok((clock, mut seat)) = Clock::new(rt.alloc(), 1) else {
        panic!(rt; "memory")
    };
    let Ok(mut replica) = Replica::prepare(rt.alloc(), 4, 1, 1) else {
        panic!(rt; "memory")
    };
    let reply = replica.serve(&clock, &mut seat, write(0, 3));
    assert_eq!(rt; reply.replica, 4);
    assert_eq!(rt; replica.journal().len(), 1);
    let journal = replica.into_journal();
    assert_eq!(rt; journal.as_slice().len(), 1);
    Ok(())
}
