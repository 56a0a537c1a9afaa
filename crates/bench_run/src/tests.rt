//! What a replica with one client serves and sends, worked by hand.
ghost use Rattle.std.specs.Prelude.{◌≡◌, ◌+◌, ◌≤◌, [], ◌∷◌, IfOk};
ghost use Rattle.std.specs.Arc.{arc_value};
ghost use Rattle.bench_run.specs.Jobs.{IsFreshReplyRoute};

use crate::ReplyRoute;
use crate::job::{BenchJob, JobParts};
use audit_ports::Job;
use post_box::{PostBox, TakerPass};
use quorum_client::Note;
use replica_node::Replica;
use stale_model::{Ask, JournalEntry, List, Memory, Reply, Request, Settings};
use std::alloc::Global;
use std::sync::{Arc, Wait};
use std::test::Fail;
use ticket_clock::{Clock, Seat};

// One client with two calls, and one key.
const SETTINGS: Settings = Settings {
    clients: 1,
    replicas: 1,
    calls: 2,
    keys: 1,
    read_quorum: 1,
    write_quorum: 1,
    writes: 50,
    seed: 1,
    shards: 1,
};

// A request of a call of the client.
fn request(seq: u32, start: u64, ask: Ask) -> Request
    ensures { result.client ≡ 0 }
{
    Request {
        client: 0,
        seq,
        start,
        key: 0,
        ask,
    }
}

// A reply of the replica to a call of the client.
fn reply(seq: u32, serve: u64, stamp: u64, value: u32) -> Reply {
    Reply {
        replica: 0,
        client: 0,
        seq,
        serve,
        stamp,
        value,
    }
}

// Draws six tickets.
fn draw_six(clock: &Clock, mut seat: Seat)
    requires own { seat.clock ≡ clock.now.id }
    requires left { 6 ≤ seat.left }
{
    for _drawn in 0..6u64 {
        clock.draw(&mut seat);
    }
}

// An inbox of a replica that holds these requests, and then that the client is done.
fn filled_inbox<R: Wait>(
    rt: &R,
    alloc: Global,
    first: Request,
    second: Request,
    third: Request,
) -> Result<(Arc<PostBox<Note>>, TakerPass<Note>), Memory>
    requires { (first.client ≡ 0) × (second.client ≡ 0) × (third.client ≡ 0) }
    ensures { IfOk result (λ made. (made.1.box ≡ arc_value made.0) × (made.1.taken ≡ [])) }
{
    let (post, mut whole) = PostBox::<Note>::open(alloc, 4)?;
    let mut pass = post.split_sender(rt, &mut whole, 0, 4);
    post.send(rt, &mut pass, Note::Ask(first));
    post.send(rt, &mut pass, Note::Ask(second));
    post.send(rt, &mut pass, Note::Ask(third));
    post.send(rt, &mut pass, Note::Done { client: 0 });
    let taker = post.split_taker(rt, &mut whole);
    Ok((Arc::new(alloc, post).map_err(|_| Memory)?, taker))
}

// A route of replica 0 for two replies, with the box and its taker.
fn open_route<R: Wait>(
    rt: &R,
    alloc: Global,
) -> Result<(ReplyRoute, Arc<PostBox<Reply>>, TakerPass<Reply>), Memory>
    ensures route { IfOk result (λ made. IsFreshReplyRoute 0 2 made.0) }
    ensures taker { IfOk result (λ made. made.2.box ≡ arc_value made.1) }
{
    let (post, mut whole) = PostBox::<Reply>::open(alloc, 2)?;
    let pass = post.split_sender(rt, &mut whole, 0, 2);
    let taker = post.split_taker(rt, &mut whole);
    let to = Arc::new(alloc, post).map_err(|_| Memory)?;
    let post = Arc::try_clone(&to).map_err(|_| Memory)?;
    Ok((ReplyRoute { to, pass }, post, taker))
}

// The clock, for the job.
fn shared(alloc: Global, clock: Clock) -> Result<Arc<Clock>, Memory>
    ensures { IfOk result (λ made. arc_value made ≡ clock) }
{
    Arc::new(alloc, clock).map_err(|_| Memory)
}

// The routes of a replica with one client.
fn only_route(alloc: Global, route: ReplyRoute) -> Result<Vec<ReplyRoute>, Memory>
    ensures { IfOk result (λ routes. routes.items ≡ route ∷ []) }
{
    Vec::from_array(alloc, [route]).map_err(|_| Memory)
}

// The replies in a box, in their order.
fn replies_in<R: Wait>(
    rt: &R,
    alloc: Global,
    post: &PostBox<Reply>,
    mut taker: TakerPass<Reply>,
) -> Result<Vec<Reply>, Memory>
    requires { taker.box ≡ post.now }
{
    let mut replies = Vec::new(alloc);
    for _ in rt.forever() {
        match post.take(rt, &mut taker) {
            Some(reply) => replies.push(reply).map_err(|_| Memory)?,
            None => return Ok(replies),
        }
    }
    unreachable!()
}

// Runs a replica with three places after six tickets, to which the client sends these requests, and then that it is
// done. The journal, and the replies that the client was sent.
fn three_sent<R: Wait + Send + Copy>(
    rt: R,
    alloc: Global,
    first: Request,
    second: Request,
    third: Request,
) -> Result<(List<JournalEntry>, Vec<Reply>), Memory>
    requires { (first.client ≡ 0) × (second.client ≡ 0) × (third.client ≡ 0) }
{
    let (clock, mut seat) = Clock::new(alloc, 9)?;
    let theirs = clock.split(&mut seat, 3);
    draw_six(&clock, seat);
    let clock = shared(alloc, clock)?;
    let (inbox, taker) = filled_inbox(&rt, alloc, first, second, third)?;
    let (route, post, replies) = open_route(&rt, alloc)?;
    let routes = only_route(alloc, route)?;
    let replica = Replica::prepare(alloc, 0, 1, 3)?;
    let parts = JobParts::new(
        alloc, clock, SETTINGS, replica, theirs, inbox, taker, routes,
    )?;
    let end = BenchJob::new(rt, parts).run();
    let replies = replies_in(&rt, alloc, &post, replies)?;
    Ok((end.replica.into_journal(), replies))
}

#[test]
fn a_repair_is_served_and_gets_no_reply(rt: HostRuntime) -> Result<(), Fail> {
    let write = request(1, 5, Ask::Write { value: 2 });
    let repair = request(1, 6, Ask::Repair { stamp: 3, value: 1 });
    let read = request(2, 4, Ask::Read);
    let Ok((journal, replies)) = three_sent(rt, rt.alloc(), write, repair, read) else {
        panic!(rt; "memory")
    };
    let written = reply(1, 7, 5, 2);
    let repaired = reply(1, 8, 3, 1);
    let was_read = reply(2, 9, 5, 2);
    let served = [
        JournalEntry {
            request: write,
            reply: written,
        },
        JournalEntry {
            request: repair,
            reply: repaired,
        },
        JournalEntry {
            request: read,
            reply: was_read,
        },
    ];
    assert_eq!(rt; journal.as_slice(), served.as_slice());
    assert_eq!(rt; replies.as_slice(), [written, was_read].as_slice());
    Ok(())
}
