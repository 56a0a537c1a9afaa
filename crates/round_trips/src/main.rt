//! Letters that go there and back between two threads over two boxes, for the bench.
#![tactic(auto)]

ghost use Rattle.std.specs.Prelude.{◌≡◌, ◌≤◌};
ghost use Rattle.std.specs.Thread.{IsSync};

use anyhow::{Result, anyhow};
use post_box::{PostBox, SenderPass, TakerPass};
use stale_model::Reply;
use std::alloc::Global;
use std::sync::Wait;
use std::thread;
use std::thread::{Threads, join};

// How many letters go there and back.
const TRIPS: u32 = 100_000;

// One end: the pass to send to the one box, and that to take from the other.
#[derive(Drop)]
struct Desk {
    sender: SenderPass<Reply>,
    taker: TakerPass<Reply>,
}

// Letter number k.
fn letter(k: u32) -> Reply
    ensures { result.replica ≡ 0 }
{
    Reply {
        replica: 0,
        client: 0,
        seq: k,
        serve: 0,
        stamp: 0,
        value: 0,
    }
}

// Takes a letter, and waits for it.
fn take_one<R: Wait>(rt: &R, post: &PostBox<Reply>, taker: &mut TakerPass<Reply>) -> Reply
    requires { taker.old.box ≡ post.now }
    ensures { taker.new.box ≡ taker.old.box }
{
    for _ in rt.forever() {
        match post.take(rt, taker) {
            Some(letter) => return letter,
            None => thread::yield_now(),
        }
    }
    unreachable!()
}

// Sends each letter, and waits for its answer.
fn ask<R: Wait>(rt: &R, to: &PostBox<Reply>, from: &PostBox<Reply>, mut desk: Desk)
    requires to { (desk.sender.box ≡ to.now) × (desk.sender.number ≡ 0) × (100000 ≤ desk.sender.budget) }
    requires from { desk.taker.box ≡ from.now }
{
    for k in 0..TRIPS {
        to.send(rt, &mut desk.sender, letter(k));
        let _answer = take_one(rt, from, &mut desk.taker);
    }
}

// Waits for each letter, and answers it.
fn answer<R: Wait>(rt: &R, to: &PostBox<Reply>, from: &PostBox<Reply>, mut desk: Desk)
    requires to { (desk.sender.box ≡ to.now) × (desk.sender.number ≡ 0) × (100000 ≤ desk.sender.budget) }
    requires from { desk.taker.box ≡ from.now }
{
    for k in 0..TRIPS {
        let _question = take_one(rt, from, &mut desk.taker);
        to.send(rt, &mut desk.sender, letter(k));
    }
}

// All round trips between two threads.
fn make_trips<R: Threads + Wait + Sync>(
    rt: &R,
    there: &PostBox<Reply>,
    back: &PostBox<Reply>,
    asker: Desk,
    answerer: Desk,
)
    requires asker { (asker.sender.box ≡ there.now) × (asker.sender.number ≡ 0) × (100000 ≤ asker.sender.budget) × (asker.taker.box ≡ back.now) }
    requires answerer { (answerer.sender.box ≡ back.now) × (answerer.sender.number ≡ 0) × (100000 ≤ answerer.sender.budget) × (answerer.taker.box ≡ there.now) }
{
    join(
        rt,
        move ||
            requires { IsSync R.row × (asker.sender.box ≡ there.now) × (asker.sender.number ≡ 0) × (100000 ≤ asker.sender.budget) × (asker.taker.box ≡ back.now) }
        { ask(rt, there, back, asker) },
        move ||
            requires { IsSync R.row × (answerer.sender.box ≡ back.now) × (answerer.sender.number ≡ 0) × (100000 ≤ answerer.sender.budget) × (answerer.taker.box ≡ there.now) }
        { answer(rt, back, there, answerer) },
    );
}

fn main(rt: HostRuntime) -> Result<()> {
    let (Ok((there, mut asking)), Ok((back, mut answering))) = (
        PostBox::open(rt.alloc(), TRIPS),
        PostBox::open(rt.alloc(), TRIPS),
    ) else {
        return Err(anyhow!("out of memory"));
    };
    let asker = Desk {
        sender: there.split_sender(&rt, &mut asking, 0, TRIPS),
        taker: back.split_taker(&rt, &mut answering),
    };
    let answerer = Desk {
        sender: back.split_sender(&rt, &mut answering, 0, TRIPS),
        taker: there.split_taker(&rt, &mut asking),
    };
    make_trips(&rt, &there, &back, asker, answerer);
    Ok(())
}
