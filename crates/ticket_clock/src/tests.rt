//! Which tickets are drawn, on one thread and on four.
ghost use Rattle.std.specs.Prelude.{◌≡◌, ◌+◌, ◌*◌, ◌<◌, ◌≤◌, length, IfOk};
ghost use Rattle.std.specs.Thread.{IsSync};
ghost use Rattle.ticket_clock.specs.Seats.{IsOneToLength};

use crate::{Clock, Memory, Seat};
use std::alloc::Global;
use std::test::Fail;
use std::thread::{Threads, join};

#[test]
fn three_draws_of_one_seat(rt: HostRuntime) -> Result<(), Fail> {
    let Ok((clock, mut seat)) = Clock::new(rt.alloc(), 3) else {
        panic!(rt; "memory")
    };
    let first = clock.draw(&mut seat);
    let second = clock.draw(&mut seat);
    let third = clock.draw(&mut seat);
    assert_eq!(rt; [first, second, third], [1, 2, 3]);
    assert_eq!(rt; clock.look(&mut seat), 4);
    Ok(())
}

#[test]
fn two_seats_draw_by_turns(rt: HostRuntime) -> Result<(), Fail> {
    let Ok((clock, mut old)) = Clock::new(rt.alloc(), 3) else {
        panic!(rt; "memory")
    };
    let mut new = clock.split(&mut old, 1);
    let first = clock.draw(&mut old);
    let second = clock.draw(&mut new);
    let third = clock.draw(&mut old);
    clock.join(&mut old, new);
    assert_eq!(rt; [first, second, third], [1, 2, 3]);
    assert_eq!(rt; clock.look(&mut old), 4);
    Ok(())
}

#[test]
fn a_passed_ticket_is_not_awaited(rt: HostRuntime) -> Result<(), Fail> {
    let Ok((clock, mut old)) = Clock::new(rt.alloc(), 2) else {
        panic!(rt; "memory")
    };
    let mut new = clock.split(&mut old, 1);
    let ticket = clock.draw(&mut new);
    clock.await_past(&rt, &mut old, ticket);
    assert_eq!(rt; clock.draw(&mut old), 2);
    Ok(())
}

// Draws so many tickets.
fn draw_all(clock: &Clock, mut seat: Seat, count: u64) -> Seat
    requires own { seat.clock ≡ clock.now.id }
    requires left { count ≤ seat.left }
    ensures own { result.clock ≡ seat.clock }
    ensures left { result.left + count ≡ seat.left }
    ensures drawn { length result.drawn ≡ length seat.drawn + count }
{
    for _drawn in 0..count {
        clock.draw(&mut seat);
    }
    seat
}

// Two threads draw so many each.
fn by_two<R: Threads + Sync>(
    rt: &R,
    clock: &Clock,
    one: Seat,
    two: Seat,
    count: u64,
) -> (Seat, Seat)
    requires own { (one.clock ≡ clock.now.id) × (two.clock ≡ clock.now.id) }
    requires left { (count ≤ one.left) × (count ≤ two.left) }
    ensures one { (result.0.clock ≡ one.clock) × (result.0.left + count ≡ one.left)
        × (length result.0.drawn ≡ length one.drawn + count) }
    ensures two { (result.1.clock ≡ two.clock) × (result.1.left + count ≡ two.left)
        × (length result.1.drawn ≡ length two.drawn + count) }
{
    join(
        rt,
        move || -> Seat
            requires { (one.clock ≡ clock.now.id) × (count ≤ one.left) }
            ensures { (result.clock ≡ one.clock) × (result.left + count ≡ one.left)
                × (length result.drawn ≡ length one.drawn + count) }
        { draw_all(clock, one, count) },
        move || -> Seat
            requires { (two.clock ≡ clock.now.id) × (count ≤ two.left) }
            ensures { (result.clock ≡ two.clock) × (result.left + count ≡ two.left)
                × (length result.drawn ≡ length two.drawn + count) }
        { draw_all(clock, two, count) },
    )
}

// Four threads draw a quarter of the tickets each. The joined seat, and what it then sees.
fn by_four<R: Threads + Sync>(rt: &R, alloc: Global, quarter: u64) -> Result<(Seat, u64), Memory>
    requires { (1 ≤ quarter) × (quarter < 1000000) }
    ensures { IfOk result (λ r. (length r.0.drawn ≡ 4 * quarter) × IsOneToLength r.0.drawn
        × (r.1 ≡ 4 * quarter + 1)) }
{
    let (clock, mut first) = Clock::new(alloc, 4 * quarter)?;
    let clock = &clock;
    let second = clock.split(&mut first, quarter);
    let third = clock.split(&mut first, quarter);
    let fourth = clock.split(&mut first, quarter);
    let ((first, second), (third, fourth)) = join(
        rt,
        move || -> (Seat, Seat)
            requires { IsSync R.row × (first.clock ≡ clock.now.id) × (second.clock ≡ clock.now.id)
                × (quarter ≤ first.left) × (quarter ≤ second.left) }
            ensures one { (result.0.clock ≡ first.clock) × (result.0.left + quarter ≡ first.left)
                × (length result.0.drawn ≡ length first.drawn + quarter) }
            ensures two { (result.1.clock ≡ second.clock) × (result.1.left + quarter ≡ second.left)
                × (length result.1.drawn ≡ length second.drawn + quarter) }
        { by_two(rt, clock, first, second, quarter) },
        move || -> (Seat, Seat)
            requires { IsSync R.row × (third.clock ≡ clock.now.id) × (fourth.clock ≡ clock.now.id)
                × (quarter ≤ third.left) × (quarter ≤ fourth.left) }
            ensures one { (result.0.clock ≡ third.clock) × (result.0.left + quarter ≡ third.left)
                × (length result.0.drawn ≡ length third.drawn + quarter) }
            ensures two { (result.1.clock ≡ fourth.clock) × (result.1.left + quarter ≡ fourth.left)
                × (length result.1.drawn ≡ length fourth.drawn + quarter) }
        { by_two(rt, clock, third, fourth, quarter) },
    );
    Ok(gathered(clock, first, second, third, fourth, quarter))
}

// Joins seats that have drawn all tickets, and looks.
fn gathered(
    clock: &Clock,
    mut first: Seat,
    second: Seat,
    third: Seat,
    fourth: Seat,
    quarter: u64,
) -> (Seat, u64)
    requires own { (first.clock ≡ clock.now.id) × (second.clock ≡ clock.now.id)
        × (third.clock ≡ clock.now.id) × (fourth.clock ≡ clock.now.id) }
    requires left { first.left + second.left + third.left + fourth.left ≡ 0 }
    requires drawn { (length first.drawn ≡ quarter) × (length second.drawn ≡ quarter)
        × (length third.drawn ≡ quarter) × (length fourth.drawn ≡ quarter) }
    requires budget { clock.now.budget ≡ 4 * quarter }
    ensures { (length result.0.drawn ≡ 4 * quarter) × IsOneToLength result.0.drawn
        × (result.1 ≡ 4 * quarter + 1) }
{
    let _quarter = quarter;
    clock.join(&mut first, second);
    clock.join(&mut first, third);
    clock.join(&mut first, fourth);
    let shown = clock.look(&mut first);
    (first, shown)
}

#[test]
fn four_threads_draw_all_tickets(rt: HostRuntime) -> Result<(), Fail> {
    let Ok((_seat, shown)) = by_four(&rt, rt.alloc(), 1000) else {
        panic!(rt; "memory")
    };
    assert_eq!(rt; shown, 4001);
    Ok(())
}
