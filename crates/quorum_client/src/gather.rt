//! The replies that a call takes for its quorum.
ghost use Rattle.std.specs.Prelude.{◌≡◌, ◌<◌, ◌≤◌, [], length, All};
ghost use Rattle.stale_model.specs.Calls.{is_stale as is_stale_reply, fresher as later_fresher, freshest as first_freshest};
ghost use Rattle.quorum_client.specs.FirstReplies.{has_reply_of, with_reply, taken_of, IsFilled, IsGathered};

use post_box::{PostBox, TakerPass};
use stale_model::{MOST_REPLICAS, Reply, Took};
use std::sync::Wait;
use std::thread;
use ticket_clock::{Clock, Seat};

// The replies that a call has taken, in the first `count` places. The others are zeros.
#[derive(Clone, Copy)]
pub(crate) struct Taken {
    pub(crate) took: [Took; MOST_REPLICAS],
    pub(crate) count: u32,
}

impl Taken {
    fn none() -> Taken
        ensures none { taken_of result ≡ [] }
        ensures filled { IsFilled result }
    {
        let nothing = Took {
            replica: 0,
            serve: 0,
            stamp: 0,
            value: 0,
        };
        Taken {
            took: [nothing; MOST_REPLICAS],
            count: 0,
        }
    }

    // Takes the reply where it is wanted.
    fn add(&mut self, reply: &Reply, seq: u32, replicas: u32)
        requires room { self.old.count < 7 }
        requires filled { IsFilled self.old }
        ensures taken { taken_of self.new ≡ with_reply seq replicas (taken_of self.old) reply.now }
        ensures filled { IsFilled self.new }
    {
        let count = self.count as usize;
        if reply.seq == seq
            && reply.replica < replicas
            && !has_reply(&self.took[..count], reply.replica)
        {
            self.took[count] = Took {
                replica: reply.replica,
                serve: reply.serve,
                stamp: reply.stamp,
                value: reply.value,
            };
            self.count += 1;
        }
    }
}

// Whether a reply of this replica was taken.
fn has_reply(taken: &[Took], replica: u32) -> bool
    ensures { result ≡ has_reply_of replica taken.now }
{
    taken.iter().any(|took| took.replica == replica)
}

/// Whether a reply of this replica, among those that a call took, is older than the stamp.
pub fn is_stale(taken: &[Took], replica: u32, stamp: u64) -> bool
    ensures { result ≡ is_stale_reply stamp replica taken.now }
{
    taken
        .iter()
        .any(|took| took.replica == replica && took.stamp < stamp)
}

/// Takes replies to the call of this number, until as many are the first of their replicas as the
/// quorum says.
pub(crate) fn take_quorum<R: Wait>(
    rt: &R,
    inbox: &PostBox<Reply>,
    taker: &mut TakerPass<Reply>,
    seq: u32,
    replicas: u32,
    quorum: u32,
) -> Taken
    requires own { taker.old.box ≡ inbox.now }
    requires few { quorum ≤ 7 }
    ensures own { taker.new.box ≡ taker.old.box }
    ensures count { result.count ≡ quorum }
    ensures filled { IsFilled result }
    ensures gathered { IsGathered seq replicas taker.old.taken taker.new.taken (taken_of result) }
{
    let mut taken = Taken::none();
    for _ in rt.forever() {
        if taken.count == quorum {
            return taken;
        }
        match inbox.take(rt, taker) {
            Some(reply) => taken.add(&reply, seq, replicas),
            None => thread::yield_now(),
        }
    }
    unreachable!()
}

/// Waits until the clock has passed the serve ticket of each reply.
pub(crate) fn await_all<R: Wait>(rt: &R, clock: &Clock, seat: &mut Seat, taken: &Taken)
    requires own { seat.old.clock ≡ clock.now.id }
    requires few { taken.now.count ≤ 7 }
    ensures past { All (λ t. t.serve < seat.new.seen) (taken_of taken.now) }
    ensures seen { seat.old.seen ≤ seat.new.seen }
    ensures seat { seat.new ≡ record seat.old { seen = seat.new.seen } }
{
    let replies = &taken.took[..taken.count as usize];
    for took in replies {
        clock.await_past(rt, seat, took.serve);
    }
}

// The later reply where its stamp is greater.
fn fresher(best: &Took, took: &Took) -> Took
    ensures { result ≡ later_fresher best.now took.now }
{
    if best.stamp < took.stamp {
        *took
    } else {
        *best
    }
}

/// The first reply with the greatest stamp, of those that a call took.
pub fn freshest(taken: &[Took]) -> Took
    requires { 0 < length taken.now }
    ensures { result ≡ first_freshest taken.now }
{
    let mut best = taken[0];
    for k in 1..taken.len() {
        best = fresher(&best, &taken[k]);
    }
    best
}
