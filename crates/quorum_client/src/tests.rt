//! Calls of one client: with a replica in a thread of its own, and with replies that wait.
ghost use Rattle.std.specs.Prelude.{◌≡◌, ◌+◌, ◌≤◌, [], length, All, IfOk, vec_len};
ghost use Rattle.std.specs.Arc.{arc_value};
ghost use Rattle.std.specs.Thread.{IsSync};
ghost use Rattle.quorum_client.specs.Routes.{IsReadyRoute};

use crate::{Client, Note, Route};
use audit_ports::OpenGate;
use post_box::{PostBox, SenderPass, TakerPass};
use stale_model::{
    Ask, Entry, Kind, List, MOST_REPLICAS, Memory, PlanCall, Reply, Request, Settings, Took,
};
use std::alloc::Global;
use std::sync::{Arc, Wait};
use std::test::Fail;
use std::thread;
use std::thread::{Threads, join};
use ticket_clock::{Clock, Seat};

// These calls, as a plan.
fn planned(alloc: Global, calls: &[PlanCall]) -> Result<List<PlanCall>, Memory>
    ensures { IfOk result (λ plan. plan ≡ calls.now) }
{
    match Vec::from_slice(alloc, calls) {
        Ok(calls) => Ok(List::from_vec(calls)),
        Err(_) => Err(Memory),
    }
}

// The routes with one more.
fn with_route(mut routes: Vec<Route>, route: Route) -> Result<Vec<Route>, Memory>
    requires routes { All (λ r. IsReadyRoute 0 5 r) routes.items }
    requires route { IsReadyRoute 0 5 route }
    ensures many { IfOk result (λ more. vec_len more ≡ vec_len routes + 1) }
    ensures routes { IfOk result (λ more. All (λ r. IsReadyRoute 0 5 r) more.items) }
{
    match routes.push(route) {
        Ok(()) => Ok(routes),
        Err(_) => Err(Memory),
    }
}

// The one client of a store, with at most two calls.
fn only_client(
    calls: List<PlanCall>,
    read_quorum: u32,
    routes: Vec<Route>,
    inbox: Arc<PostBox<Reply>>,
    taker: TakerPass<Reply>,
    seat: Seat,
) -> Client
    requires calls { length calls ≤ 2 }
    requires quorum { (1 ≤ read_quorum) × (read_quorum ≤ vec_len routes) }
    requires few { vec_len routes ≤ 7 }
    requires routes { All (λ r. IsReadyRoute 0 5 r) routes.items }
    requires taker { (taker.box ≡ arc_value inbox) × (taker.taken ≡ []) }
    requires left { 4 ≤ seat.left }
    ensures left { result.left ≡ calls }
    ensures seat { result.seat ≡ seat }
{
    let replicas = routes.len() as u32;
    let settings = Settings {
        clients: 1,
        replicas,
        calls: 2,
        keys: 1,
        read_quorum,
        write_quorum: replicas,
        writes: 50,
        seed: 1,
        shards: 1,
    };
    Client::new(0, &settings, calls, routes, inbox, taker, seat)
}

// A route for at most five notes of client 0, with the box of the replica and its taker.
fn open_route<R: Wait>(
    rt: &R,
    alloc: Global,
) -> Result<(Route, Arc<PostBox<Note>>, TakerPass<Note>), Memory>
    ensures route { IfOk result (λ made. IsReadyRoute 0 5 made.0) }
    ensures taker { IfOk result (λ made. made.2.box ≡ arc_value made.1) }
{
    let (post, mut whole) = PostBox::<Note>::open(alloc, 5)?;
    let pass = post.split_sender(rt, &mut whole, 0, 5);
    let taker = post.split_taker(rt, &mut whole);
    let to = Arc::new(alloc, post).map_err(|_| Memory)?;
    let post = Arc::try_clone(&to).map_err(|_| Memory)?;
    Ok((Route { to, pass }, post, taker))
}

// An inbox for at most two replies of replica 0, with its taker; and once more, for the replica.
fn open_inbox<R: Wait>(
    rt: &R,
    alloc: Global,
) -> Result<
    (
        Arc<PostBox<Reply>>,
        TakerPass<Reply>,
        Arc<PostBox<Reply>>,
        SenderPass<Reply>,
    ),
    Memory,
>
    ensures taker { IfOk result (λ made. (made.1.box ≡ arc_value made.0) × (made.1.taken ≡ [])) }
    ensures pass { IfOk result (λ made. (made.3.box ≡ arc_value made.2) × (made.3.number ≡ 0)
        × (made.3.budget ≡ 2)) }
{
    let (post, mut whole) = PostBox::<Reply>::open(alloc, 2)?;
    let pass = post.split_sender(rt, &mut whole, 0, 2);
    let taker = post.split_taker(rt, &mut whole);
    let inbox = Arc::new(alloc, post).map_err(|_| Memory)?;
    let replies = Arc::try_clone(&inbox).map_err(|_| Memory)?;
    Ok((inbox, taker, replies, pass))
}

// The next request in the box, for which it waits.
fn next_request<R: Wait>(rt: &R, post: &PostBox<Note>, taker: &mut TakerPass<Note>) -> Request
    requires { taker.old.box ≡ post.now }
    ensures { taker.new.box ≡ taker.old.box }
{
    for _ in rt.forever() {
        match post.take(rt, taker) {
            Some(Note::Ask(request)) => return request,
            _ => thread::yield_now(),
        }
    }
    unreachable!()
}

// What replica 0, which holds nothing, replies to a request that it serves at this ticket.
fn reply_to(request: &Request, serve: u64) -> Reply
    ensures { result.replica ≡ 0 }
{
    let (stamp, value) = match request.ask {
        Ask::Read => (0, 0),
        Ask::Write { value } => (request.start, value),
        Ask::Repair { stamp, value } => (stamp, value),
    };
    Reply {
        replica: 0,
        client: request.client,
        seq: request.seq,
        serve,
        stamp,
        value,
    }
}

// Serves so many requests as replica 0.
fn serve<R: Wait>(
    rt: &R,
    clock: &Clock,
    mut seat: Seat,
    requests: &PostBox<Note>,
    mut taker: TakerPass<Note>,
    replies: &PostBox<Reply>,
    mut pass: SenderPass<Reply>,
    count: u32,
)
    requires seat { (seat.clock ≡ clock.now.id) × (count ≤ seat.left) }
    requires taker { taker.box ≡ requests.now }
    requires pass { (pass.box ≡ replies.now) × (pass.number ≡ 0) × (count ≤ pass.budget) }
{
    for _served in 0..count {
        let request = next_request(rt, requests, &mut taker);
        clock.await_past(rt, &mut seat, request.start);
        let ticket = clock.draw(&mut seat);
        replies.send(rt, &mut pass, reply_to(&request, ticket));
    }
}

// Makes all calls that are left.
fn make_all<R: Wait>(
    rt: &R,
    clock: &Clock,
    mut client: Client,
    mut entries: Vec<Entry>,
) -> Result<(Client, Vec<Entry>), Memory>
    requires { client.seat.clock ≡ clock.now.id }
{
    for _made in 0..client.left() {
        let entry = client.call(rt, clock, &OpenGate);
        entries.push(entry).map_err(|_| Memory)?;
    }
    Ok((client, entries))
}

// Makes all calls of a client beside a thread that serves so many requests.
fn beside<R: Threads + Wait + Sync>(
    rt: &R,
    clock: &Clock,
    seat: Seat,
    requests: &PostBox<Note>,
    notes: TakerPass<Note>,
    replies: &PostBox<Reply>,
    pass: SenderPass<Reply>,
    client: Client,
    entries: Vec<Entry>,
    count: u32,
) -> Result<(Client, Vec<Entry>), Memory>
    requires seat { (seat.clock ≡ clock.now.id) × (count ≤ seat.left) }
    requires notes { notes.box ≡ requests.now }
    requires pass { (pass.box ≡ replies.now) × (pass.number ≡ 0) × (count ≤ pass.budget) }
    requires client { client.seat.clock ≡ clock.now.id }
{
    let ((), made) = join(
        rt,
        move || -> ()
            requires { IsSync R.row × (seat.clock ≡ clock.now.id) × (count ≤ seat.left)
                × (notes.box ≡ requests.now) × (pass.box ≡ replies.now) × (pass.number ≡ 0)
                × (count ≤ pass.budget) }
        { serve(rt, clock, seat, requests, notes, replies, pass, count) },
        move || -> Result<(Client, Vec<Entry>), Memory>
            requires { IsSync R.row × (client.seat.clock ≡ clock.now.id) }
        { make_all(rt, clock, client, entries) },
    );
    made
}

// The entries of at most two calls of a client, with one replica in a thread of its own, and how
// many calls are then left.
fn beside_a_replica<R: Threads + Wait + Sync>(
    rt: &R,
    alloc: Global,
    calls: &[PlanCall],
) -> Result<(Vec<Entry>, u32), Memory>
    requires { length calls.now ≤ 2 }
{
    let count = calls.len() as u32;
    let entries = Vec::with_capacity(alloc, 2).map_err(|_| Memory)?;
    let calls = planned(alloc, calls)?;
    let (clock, mut seat) = Clock::new(alloc, 6)?;
    let theirs = clock.split(&mut seat, 2);
    let (route, requests, notes) = open_route(rt, alloc)?;
    let routes = with_route(Vec::new(alloc), route)?;
    let (inbox, taker, replies, pass) = open_inbox(rt, alloc)?;
    let client = only_client(calls, 1, routes, inbox, taker, seat);
    let (client, entries) = beside(
        rt, &clock, theirs, &requests, notes, &replies, pass, client, entries, count,
    )?;
    Ok((entries, client.left()))
}

// The entry of a call of client 0 on key 0, which took these replies.
fn entry(seq: u32, kind: Kind, value: u32, start: u64, finish: u64, taken: &[Took]) -> Entry
    requires { length taken.now ≤ 7 }
{
    let nothing = Took {
        replica: 0,
        serve: 0,
        stamp: 0,
        value: 0,
    };
    let mut took = [nothing; MOST_REPLICAS];
    took[..taken.len()].copy_from_slice(taken);
    Entry {
        client: 0,
        seq,
        kind,
        key: 0,
        value,
        start,
        finish,
        took,
        took_count: taken.len() as u32,
    }
}

fn took(replica: u32, serve: u64, stamp: u64, value: u32) -> Took {
    Took {
        replica,
        serve,
        stamp,
        value,
    }
}

fn write_of(value: u32) -> PlanCall {
    PlanCall {
        kind: Kind::Write,
        key: 0,
        value,
    }
}

const READ: PlanCall = PlanCall {
    kind: Kind::Read,
    key: 0,
    value: 0,
};

#[test]
fn two_writes_beside_a_replica(rt: HostRuntime) -> Result<(), Fail> {
    let calls = [write_of(1), write_of(2)];
    let Ok((entries, left)) = beside_a_replica(&rt, rt.alloc(), &calls) else {
        panic!(rt; "memory")
    };
    let first = entry(1, Kind::Write, 1, 1, 3, &[took(0, 2, 1, 1)]);
    let second = entry(2, Kind::Write, 2, 4, 6, &[took(0, 5, 4, 2)]);
    assert_eq!(rt; entries.as_slice(), [first, second].as_slice());
    assert_eq!(rt; left, 0);
    Ok(())
}

#[test]
fn a_read_of_an_empty_store(rt: HostRuntime) -> Result<(), Fail> {
    let Ok((entries, left)) = beside_a_replica(&rt, rt.alloc(), &[READ]) else {
        panic!(rt; "memory")
    };
    let only = entry(1, Kind::Read, 0, 1, 3, &[took(0, 2, 0, 0)]);
    assert_eq!(rt; entries.as_slice(), [only].as_slice());
    assert_eq!(rt; left, 0);
    Ok(())
}

// The letters in a box, in their order.
fn letters_in<R: Wait>(
    rt: &R,
    alloc: Global,
    post: &PostBox<Note>,
    mut taker: TakerPass<Note>,
) -> Result<Vec<Note>, Memory>
    requires { taker.box ≡ post.now }
{
    let mut letters = Vec::new(alloc);
    for _ in rt.forever() {
        match post.take(rt, &mut taker) {
            Some(letter) => letters.push(letter).map_err(|_| Memory)?,
            None => return Ok(letters),
        }
    }
    unreachable!()
}

// Draws five tickets.
fn draw_five(clock: &Clock, mut seat: Seat)
    requires { (seat.clock ≡ clock.now.id) × (5 ≤ seat.left) }
{
    clock.draw(&mut seat);
    clock.draw(&mut seat);
    clock.draw(&mut seat);
    clock.draw(&mut seat);
    clock.draw(&mut seat);
}

// A replica's reply to the first call of client 0, by its serve ticket and what it holds.
fn reply(replica: u32, took: &Took) -> Reply
    ensures { result.replica ≡ replica }
{
    Reply {
        replica,
        client: 0,
        seq: 1,
        serve: took.serve,
        stamp: took.stamp,
        value: took.value,
    }
}

// An inbox that holds a reply of replica 0 and then one of replica 1, with its taker.
fn filled_inbox<R: Wait>(
    rt: &R,
    alloc: Global,
    zero: &Took,
    one: &Took,
) -> Result<(Arc<PostBox<Reply>>, TakerPass<Reply>), Memory>
    ensures { IfOk result (λ made. (made.1.box ≡ arc_value made.0) × (made.1.taken ≡ [])) }
{
    let (post, mut whole) = PostBox::<Reply>::open(alloc, 2)?;
    let mut zeros = post.split_sender(rt, &mut whole, 0, 1);
    let mut ones = post.split_sender(rt, &mut whole, 1, 1);
    post.send(rt, &mut zeros, reply(0, zero));
    post.send(rt, &mut ones, reply(1, one));
    let taker = post.split_taker(rt, &mut whole);
    Ok((Arc::new(alloc, post).map_err(|_| Memory)?, taker))
}

// A read with this quorum of two replicas whose replies are there, once five tickets were drawn:
// its entry, and what was sent to each replica.
fn read_of_two<R: Wait>(
    rt: &R,
    alloc: Global,
    read_quorum: u32,
    zero: &Took,
    one: &Took,
) -> Result<(Entry, Vec<Note>, Vec<Note>), Memory>
    requires { (1 ≤ read_quorum) × (read_quorum ≤ 2) }
{
    let (clock, mut seat) = Clock::new(alloc, 9)?;
    draw_five(&clock, clock.split(&mut seat, 5));
    let calls = planned(alloc, &[READ])?;
    let (to_zero, zeros, notes_of_zero) = open_route(rt, alloc)?;
    let (to_one, ones, notes_of_one) = open_route(rt, alloc)?;
    let routes = with_route(Vec::new(alloc), to_zero)?;
    let routes = with_route(routes, to_one)?;
    let (inbox, taker) = filled_inbox(rt, alloc, zero, one)?;
    let mut client = only_client(calls, read_quorum, routes, inbox, taker, seat);
    let entry = client.call(rt, &clock, &OpenGate);
    client.close(rt);
    let sent_to_zero = letters_in(rt, alloc, &zeros, notes_of_zero)?;
    let sent_to_one = letters_in(rt, alloc, &ones, notes_of_one)?;
    Ok((entry, sent_to_zero, sent_to_one))
}

// A request of the first call of client 0 on key 0.
fn request(start: u64, ask: Ask) -> Note {
    Note::Ask(Request {
        client: 0,
        seq: 1,
        start,
        key: 0,
        ask,
    })
}

const DONE: Note = Note::Done { client: 0 };

#[test]
fn a_read_repairs_the_older_replica(rt: HostRuntime) -> Result<(), Fail> {
    let older = took(0, 3, 0, 0);
    let newer = took(1, 4, 2, 1);
    let Ok((read, to_zero, to_one)) = read_of_two(&rt, rt.alloc(), 2, &older, &newer) else {
        panic!(rt; "memory")
    };
    assert_eq!(rt; read, entry(1, Kind::Read, 1, 6, 7, &[older, newer]));
    let asked = request(6, Ask::Read);
    let repaired = request(7, Ask::Repair { stamp: 2, value: 1 });
    assert_eq!(rt; to_zero.as_slice(), [asked, repaired, DONE].as_slice());
    assert_eq!(rt; to_one.as_slice(), [asked, DONE].as_slice());
    Ok(())
}

#[test]
fn a_read_of_one_replica_may_be_older(rt: HostRuntime) -> Result<(), Fail> {
    let older = took(0, 3, 1, 1);
    let newer = took(1, 4, 2, 2);
    let Ok((read, to_zero, to_one)) = read_of_two(&rt, rt.alloc(), 1, &older, &newer) else {
        panic!(rt; "memory")
    };
    assert_eq!(rt; read, entry(1, Kind::Read, 1, 6, 7, &[older]));
    let asked = request(6, Ask::Read);
    assert_eq!(rt; to_zero.as_slice(), [asked, DONE].as_slice());
    assert_eq!(rt; to_one.as_slice(), [asked, DONE].as_slice());
    Ok(())
}
