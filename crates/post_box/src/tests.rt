//! Which letters are taken, on one thread and on four.
ghost use Rattle.std.specs.Prelude.{◌≡◌, ℕ, ◌+◌, ◌<◌, ◌≤◌, true, [], IfOk, IfSome};
ghost use Rattle.std.specs.Thread.{IsSync};
ghost use Rattle.ticket_clock.specs.Seats.{times};
ghost use Rattle.post_box.specs.Boxes.{letters_of};

use crate::{Letter, Memory, PostBox, SenderPass, TakerPass, Whole};
use std::alloc::{AllocError, Global};
use std::sync::Wait;
use std::test::Fail;
use std::thread;
use std::thread::{Threads, join};

// A letter of these tests: its sender, and how many the sender had sent before.
#[derive(Copy, Clone)]
struct Note {
    from: u32,
    before: u32,
}

impl Letter for Note {
    ghost from = { λ n. n.from };

    fn sender(&self) -> u32 {
        self.from
    }
}

// Sends so many letters, numbered from 0 on.
fn send_all<R: Wait>(
    rt: &R,
    post: &PostBox<Note>,
    mut pass: SenderPass<Note>,
    from: u32,
    count: u32,
) -> SenderPass<Note>
    requires own { pass.box ≡ post.now }
    requires number { pass.number ≡ from }
    requires budget { count ≤ pass.budget }
    ensures own { (result.box ≡ pass.box) × (result.number ≡ pass.number) }
    ensures budget { result.budget + count ≡ pass.budget }
{
    for before in 0..count {
        post.send(rt, &mut pass, Note { from, before });
    }
    pass
}

// Takes so many letters, and waits for them.
fn take_all<R: Wait>(
    rt: &R,
    post: &PostBox<Note>,
    mut pass: TakerPass<Note>,
    mut letters: Vec<Note>,
    count: usize,
) -> Result<(TakerPass<Note>, Vec<Note>), AllocError>
    requires own { pass.box ≡ post.now }
    requires none { (pass.taken ≡ []) × (letters.items ≡ []) }
    ensures { IfOk result (λ r. (r.0.box ≡ pass.box) × (r.0.taken ≡ r.1.items)) }
{
    for _ in rt.forever() {
        if letters.len() >= count {
            break;
        }
        match post.take(rt, &mut pass) {
            Some(letter) => letters.push(letter)?,
            None => thread::yield_now(),
        }
    }
    Ok((pass, letters))
}

// Takes what is left. All that was sent was then taken.
fn take_rest<R: Wait>(
    rt: &R,
    post: &PostBox<Note>,
    mut whole: Whole<Note>,
    mut letters: Vec<Note>,
) -> Result<Vec<Note>, AllocError>
    requires own { whole.box ≡ post.now }
    requires senders { (s : ℕ) → times s whole.gathered ≡ times s whole.numbers }
    requires taker { (whole.takes ≡ true) × (whole.taken ≡ letters.items) }
    ensures { IfOk result (λ r. (s : ℕ) → letters_of (λ n. n.from) s r.items
        ≡ letters_of (λ n. n.from) s whole.sent) }
{
    for _ in rt.forever() {
        match post.rest(rt, &mut whole) {
            Some(letter) => letters.push(letter)?,
            None => return Ok(letters),
        }
    }
    unreachable!()
}

// Two threads send so many letters each.
fn send_both<R: Threads + Wait + Sync>(
    rt: &R,
    post: &PostBox<Note>,
    zero: SenderPass<Note>,
    one: SenderPass<Note>,
    count: u32,
) -> (SenderPass<Note>, SenderPass<Note>)
    requires zero { (zero.box ≡ post.now) × (zero.number ≡ 0) × (count ≤ zero.budget) }
    requires one { (one.box ≡ post.now) × (one.number ≡ 1) × (count ≤ one.budget) }
    ensures { (result.0.box ≡ zero.box) × (result.0.number ≡ 0)
        × (result.1.box ≡ one.box) × (result.1.number ≡ 1) }
{
    join(
        rt,
        move || -> SenderPass<Note>
            requires { (zero.box ≡ post.now) × (zero.number ≡ 0) × (count ≤ zero.budget) }
            ensures { (result.box ≡ zero.box) × (result.number ≡ 0) }
        { send_all(rt, post, zero, 0, count) },
        move || -> SenderPass<Note>
            requires { (one.box ≡ post.now) × (one.number ≡ 1) × (count ≤ one.budget) }
            ensures { (result.box ≡ one.box) × (result.number ≡ 1) }
        { send_all(rt, post, one, 1, count) },
    )
}

// One thread sends so many letters, and another takes twice as many.
fn send_and_take<R: Threads + Wait + Sync>(
    rt: &R,
    post: &PostBox<Note>,
    two: SenderPass<Note>,
    taker: TakerPass<Note>,
    letters: Vec<Note>,
    count: u32,
) -> (
    SenderPass<Note>,
    Result<(TakerPass<Note>, Vec<Note>), AllocError>,
)
    requires two { (two.box ≡ post.now) × (two.number ≡ 2) × (count ≤ two.budget) }
    requires taker { (taker.box ≡ post.now) × (taker.taken ≡ []) × (letters.items ≡ []) }
    requires count { count < 1000000 }
    ensures { (result.0.box ≡ two.box) × (result.0.number ≡ 2)
        × IfOk result.1 (λ r. (r.0.box ≡ taker.box) × (r.0.taken ≡ r.1.items)) }
{
    let wanted = (2 * count) as usize;
    join(
        rt,
        move || -> SenderPass<Note>
            requires { (two.box ≡ post.now) × (two.number ≡ 2) × (count ≤ two.budget) }
            ensures { (result.box ≡ two.box) × (result.number ≡ 2) }
        { send_all(rt, post, two, 2, count) },
        move || -> Result<(TakerPass<Note>, Vec<Note>), AllocError>
            requires { (taker.box ≡ post.now) × (taker.taken ≡ []) × (letters.items ≡ []) }
            ensures { IfOk result (λ r. (r.0.box ≡ taker.box) × (r.0.taken ≡ r.1.items)) }
        { take_all(rt, post, taker, letters, wanted) },
    )
}

// Three threads send so many letters each through a box with room for these, and a fourth takes
// beside them. All letters, as they were taken.
fn by_three<R: Threads + Wait + Sync>(
    rt: &R,
    alloc: Global,
    count: u32,
) -> Result<Vec<Note>, AllocError>
    requires { (1 ≤ count) × (count < 1000000) }
{
    let Ok((post, mut whole)) = PostBox::<Note>::open(alloc, 3 * count) else {
        return Err(AllocError);
    };
    let post = &post;
    let zero = post.split_sender(rt, &mut whole, 0, count);
    let one = post.split_sender(rt, &mut whole, 1, count);
    let two = post.split_sender(rt, &mut whole, 2, count);
    let taker = post.split_taker(rt, &mut whole);
    let letters = Vec::new(alloc);
    let ((zero, one), (two, took)) = join(
        rt,
        move || -> (SenderPass<Note>, SenderPass<Note>)
            requires { IsSync R.row × (zero.box ≡ post.now) × (zero.number ≡ 0)
                × (count ≤ zero.budget) × (one.box ≡ post.now) × (one.number ≡ 1)
                × (count ≤ one.budget) }
            ensures { (result.0.box ≡ zero.box) × (result.0.number ≡ 0)
                × (result.1.box ≡ one.box) × (result.1.number ≡ 1) }
        { send_both(rt, post, zero, one, count) },
        move || -> (
            SenderPass<Note>,
            Result<(TakerPass<Note>, Vec<Note>), AllocError>,
        )
            requires { IsSync R.row × (two.box ≡ post.now) × (two.number ≡ 2)
                × (count ≤ two.budget) × (taker.box ≡ post.now) × (taker.taken ≡ [])
                × (letters.items ≡ []) × (count < 1000000) }
            ensures { (result.0.box ≡ two.box) × (result.0.number ≡ 2)
                × IfOk result.1 (λ r. (r.0.box ≡ taker.box) × (r.0.taken ≡ r.1.items)) }
        { send_and_take(rt, post, two, taker, letters, count) },
    );
    let (taker, letters) = took?;
    post.gather_taker(rt, &mut whole, taker);
    post.gather_sender(rt, &mut whole, zero);
    post.gather_sender(rt, &mut whole, one);
    post.gather_sender(rt, &mut whole, two);
    take_rest(rt, post, whole, letters)
}

// How many letters of this sender come in its order.
fn in_order(letters: &[Note], from: u32) -> u32 {
    let mut next = 0u32;
    for letter in letters {
        if letter.sender() == from && letter.before == next {
            next = next.wrapping_add(1);
        }
    }
    next
}

// Whether these are so many letters of each of three senders, in its order.
fn are_in_order(letters: &[Note], count: u32) -> bool {
    letters.len() as u64 == 3 * u64::from(count)
        && in_order(letters, 0) == count
        && in_order(letters, 1) == count
        && in_order(letters, 2) == count
}

#[test]
fn three_sender_threads_and_a_taker(rt: HostRuntime) -> Result<(), Fail> {
    let letters = by_three(&rt, rt.alloc(), 500)?;
    assert!(rt; are_in_order(letters.as_slice(), 500));
    Ok(())
}

// In how many of so many rounds, each on a fresh box with room for six letters, each sender's
// letters come in its order.
fn good_rounds<R: Threads + Wait + Sync>(
    rt: &R,
    alloc: Global,
    rounds: u32,
) -> Result<u32, AllocError> {
    let mut good = 0u32;
    for _round in 0..rounds {
        let letters = by_three(rt, alloc, 2)?;
        if are_in_order(letters.as_slice(), 2) {
            good = good.wrapping_add(1);
        }
    }
    Ok(good)
}

#[test]
fn rounds_of_three_senders_and_a_taker(rt: HostRuntime) -> Result<(), Fail> {
    assert_eq!(rt; good_rounds(&rt, rt.alloc(), 200)?, 200);
    Ok(())
}

// The sender of a letter and what it had sent before, or 9 and 9 for none.
fn shown(letter: Option<Note>) -> (u32, u32) {
    match letter {
        Some(letter) => (letter.from, letter.before),
        None => (9, 9),
    }
}

#[test]
fn two_senders_in_turn_then_none(rt: HostRuntime) -> Result<(), Fail> {
    let Ok((post, mut whole)) = PostBox::<Note>::open(rt.alloc(), 3) else {
        panic!(rt; "memory")
    };
    let mut zero = post.split_sender(&rt, &mut whole, 0, 2);
    let mut one = post.split_sender(&rt, &mut whole, 1, 1);
    let mut taker = post.split_taker(&rt, &mut whole);
    post.send(&rt, &mut zero, Note { from: 0, before: 0 });
    post.send(&rt, &mut one, Note { from: 1, before: 0 });
    post.send(&rt, &mut zero, Note { from: 0, before: 1 });
    assert_eq!(rt; shown(post.take(&rt, &mut taker)), (0, 0));
    assert_eq!(rt; shown(post.take(&rt, &mut taker)), (1, 0));
    assert_eq!(rt; shown(post.take(&rt, &mut taker)), (0, 1));
    assert!(rt; post.take(&rt, &mut taker).is_none());
    post.gather_taker(&rt, &mut whole, taker);
    post.gather_sender(&rt, &mut whole, one);
    post.gather_sender(&rt, &mut whole, zero);
    assert!(rt; post.rest(&rt, &mut whole).is_none());
    Ok(())
}

#[test]
fn three_letters_in_their_order(rt: HostRuntime) -> Result<(), Fail> {
    let Ok((post, mut whole)) = PostBox::<Note>::open(rt.alloc(), 3) else {
        panic!(rt; "memory")
    };
    let zero = post.split_sender(&rt, &mut whole, 0, 3);
    let zero = send_all(&rt, &post, zero, 0, 3);
    post.gather_sender(&rt, &mut whole, zero);
    assert_eq!(rt; shown(post.rest(&rt, &mut whole)), (0, 0));
    assert_eq!(rt; shown(post.rest(&rt, &mut whole)), (0, 1));
    assert_eq!(rt; shown(post.rest(&rt, &mut whole)), (0, 2));
    assert!(rt; post.rest(&rt, &mut whole).is_none());
    Ok(())
}

// Takes from an empty box, by the taker and then by the whole. Where both find none, the whole,
// which counts them both.
fn two_empties<R: Wait>(rt: &R, alloc: Global) -> Result<Option<Whole<Note>>, Memory>
    ensures { IfOk result (λ found. IfSome found (λ whole. whole.empties ≡ 2)) }
{
    let (post, mut whole) = PostBox::<Note>::open(alloc, 1)?;
    let mut taker = post.split_taker(rt, &mut whole);
    let None = post.take(rt, &mut taker) else {
        return Ok(None);
    };
    post.gather_taker(rt, &mut whole, taker);
    let None = post.rest(rt, &mut whole) else {
        return Ok(None);
    };
    Ok(Some(whole))
}

#[test]
fn an_empty_box_gives_none_and_counts_it(rt: HostRuntime) -> Result<(), Fail> {
    let Ok(counted) = two_empties(&rt, rt.alloc()) else {
        panic!(rt; "memory")
    };
    assert!(rt; counted.is_some());
    Ok(())
}
