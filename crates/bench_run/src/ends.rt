//! The ends of a run: its seats join, and its passes go back to their boxes, which tells what was taken.
ghost use Rattle.std.specs.Prelude.{◌≡◌, ℕ, ◌+◌, ◌<◌, ◌≤◌, true, [], ◌∷◌, ◌++◌, length, map, flat_map, sum_by, slice_index_or, vec_len, vec_capacity};
ghost use Rattle.bench_run.specs.Ends.{IsOwnNotes, IsOwnReplies, IsClientOf, IsReplicaOf, AreNoteRoutes, AreReplyRoutes, HasReplies, HasNotes, IsToldNotes, IsToldReplies, AreToldNotes, AreTakenReplies, IsSameInbox, HasTickets, with_route};

use crate::boxes::{NoteBox, ReplyBox};
use crate::job::{BenchEnd, ReplyRoute};
use quorum_client::{ClientEnd, Route};
use stale_model::{JournalEntry, List};
use std::sync::Wait;
use ticket_clock::{Clock, Seat};

/// The ends of the clients, and then those of the replicas: their seats join, all passes go back to their boxes, and the
/// journals of the replicas stand one after the other.
pub(crate) fn take_in<R: Wait>(
    rt: &R,
    clock: &Clock,
    seat: &mut Seat,
    inboxes: &mut [ReplyBox],
    boxes: &mut [NoteBox],
    journals: &mut Vec<List<JournalEntry>>,
    client_ends: Vec<ClientEnd>,
    ends: Vec<BenchEnd>,
)
    requires own { seat.old.clock ≡ clock.now.id }
    requires many_clients { vec_len client_ends ≡ length inboxes.old }
    requires many { vec_len ends ≡ length boxes.old }
    requires inboxes { (k : ℕ) (b : ReplyBox) → k < length inboxes.old → IsOwnReplies (slice_index_or inboxes.old k b) }
    requires boxes { (k : ℕ) (b : NoteBox) → k < length boxes.old → IsOwnNotes (slice_index_or boxes.old k b) }
    requires clients { (k : ℕ) (e : ClientEnd) (b : ReplyBox) → k < vec_len client_ends
        → IsClientOf seat.old (slice_index_or inboxes.old k b) boxes.old (slice_index_or client_ends.items k e) }
    requires replicas { (k : ℕ) (e : BenchEnd) (b : NoteBox) → k < vec_len ends
        → IsReplicaOf seat.old (slice_index_or boxes.old k b) inboxes.old (slice_index_or ends.items k e) }
    requires room { vec_len journals.old + vec_len ends ≤ vec_capacity journals.old }
    ensures seat { HasTickets (flat_map (λ e. e.seat.drawn) client_ends.items ++ flat_map (λ e. e.seat.drawn) ends.items)
        (sum_by (λ e. e.seat.left) client_ends.items + sum_by (λ e. e.seat.left) ends.items) seat.old seat.new }
    ensures notes { (k : ℕ) (b : NoteBox) (e : BenchEnd) → k < length boxes.old
        → AreToldNotes k client_ends.items (slice_index_or boxes.old k b) (slice_index_or ends.items k e) }
    ensures replies { (k c : ℕ) (d : ClientEnd) (e : BenchEnd) (r : ReplyRoute) → k < vec_len ends → c < vec_len client_ends
        → AreTakenReplies (slice_index_or client_ends.items c d) (slice_index_or (slice_index_or ends.items k e).routes.items c r) }
    ensures journals { journals.new.items ≡ journals.old.items ++ map (λ e. e.replica.journal) ends.items }
{
    take_in_clients(rt, clock, seat, inboxes, boxes, client_ends);
    take_in_replicas(rt, clock, seat, boxes, inboxes, journals, ends);
}

// The ends of the clients, client by client: their seats join, their takers go back to their inboxes, and their senders
// to the boxes of the replicas.
fn take_in_clients<R: Wait>(
    rt: &R,
    clock: &Clock,
    seat: &mut Seat,
    inboxes: &mut [ReplyBox],
    boxes: &mut [NoteBox],
    ends: Vec<ClientEnd>,
)
    requires own { seat.old.clock ≡ clock.now.id }
    requires many { vec_len ends ≡ length inboxes.old }
    requires inboxes { (k : ℕ) (b : ReplyBox) → k < length inboxes.old → IsOwnReplies (slice_index_or inboxes.old k b) }
    requires boxes { (k : ℕ) (b : NoteBox) → k < length boxes.old → IsOwnNotes (slice_index_or boxes.old k b) }
    requires ends { (k : ℕ) (e : ClientEnd) (b : ReplyBox) → k < vec_len ends → IsClientOf seat.old (slice_index_or inboxes.old k b) boxes.old (slice_index_or ends.items k e) }
    ensures seat { HasTickets (flat_map (λ e. e.seat.drawn) ends.items) (sum_by (λ e. e.seat.left) ends.items) seat.old seat.new }
    ensures inboxes { length inboxes.new ≡ length inboxes.old }
    ensures replies { (k : ℕ) (b : ReplyBox) (e : ClientEnd) → k < length inboxes.old → HasReplies (slice_index_or ends.items k e) (slice_index_or inboxes.old k b) (slice_index_or inboxes.new k b) }
    ensures boxes { length boxes.new ≡ length boxes.old }
    ensures notes { (k : ℕ) (b : NoteBox) → k < length boxes.old → HasNotes k ends.items (slice_index_or boxes.old k b) (slice_index_or boxes.new k b) }
{
    for (client, end) in ends.into_iter().enumerate() {
        take_in_client(rt, clock, seat, &mut inboxes[client], boxes, end);
    }
}

// The end of one client.
fn take_in_client<R: Wait>(
    rt: &R,
    clock: &Clock,
    seat: &mut Seat,
    inbox: &mut ReplyBox,
    boxes: &mut [NoteBox],
    end: ClientEnd,
)
    requires own { seat.old.clock ≡ clock.now.id }
    requires inbox { IsOwnReplies inbox.old }
    requires boxes { (k : ℕ) (b : NoteBox) → k < length boxes.old → IsOwnNotes (slice_index_or boxes.old k b) }
    requires end { IsClientOf seat.old inbox.old boxes.old end }
    ensures seat { HasTickets end.seat.drawn end.seat.left seat.old seat.new }
    ensures replies { HasReplies end inbox.old inbox.new }
    ensures boxes { length boxes.new ≡ length boxes.old }
    ensures notes { (k : ℕ) (b : NoteBox) (r : Route) → k < length boxes.old → slice_index_or boxes.new k b ≡ with_route (slice_index_or end.routes k r) (slice_index_or boxes.old k b) }
{
    clock.join(seat, end.seat);
    inbox.post.gather_taker(rt, &mut inbox.whole, end.taker);
    take_in_routes(rt, boxes, end.routes);
}

// The senders of one client, each to the box of its replica.
fn take_in_routes<R: Wait>(rt: &R, boxes: &mut [NoteBox], routes: List<Route>)
    requires boxes { (k : ℕ) (b : NoteBox) → k < length boxes.old → IsOwnNotes (slice_index_or boxes.old k b) }
    requires routes { AreNoteRoutes boxes.old routes }
    ensures boxes { length boxes.new ≡ length boxes.old }
    ensures notes { (k : ℕ) (b : NoteBox) (r : Route) → k < length boxes.old → slice_index_or boxes.new k b ≡ with_route (slice_index_or routes k r) (slice_index_or boxes.old k b) }
{
    for (replica, route) in routes.into_vec().into_iter().enumerate() {
        take_in_route(rt, &mut boxes[replica], route);
    }
}

// One sender, to its box.
fn take_in_route<R: Wait>(rt: &R, to: &mut NoteBox, route: Route)
    requires to { IsOwnNotes to.old }
    requires route { route.pass.box ≡ to.old.whole.box }
    ensures { to.new ≡ with_route route to.old }
{
    to.post.gather_sender(rt, &mut to.whole, route.pass);
}

// The ends of the replicas, replica by replica: their seats join, their takers go back to their boxes, their senders to
// the inboxes of the clients, and their journals stand one after the other.
fn take_in_replicas<R: Wait>(
    rt: &R,
    clock: &Clock,
    seat: &mut Seat,
    boxes: &mut [NoteBox],
    inboxes: &mut [ReplyBox],
    journals: &mut Vec<List<JournalEntry>>,
    ends: Vec<BenchEnd>,
)
    requires own { seat.old.clock ≡ clock.now.id }
    requires many { vec_len ends ≡ length boxes.old }
    requires boxes { (k : ℕ) (b : NoteBox) → k < length boxes.old → IsOwnNotes (slice_index_or boxes.old k b) }
    requires inboxes { (k : ℕ) (b : ReplyBox) → k < length inboxes.old → IsOwnReplies (slice_index_or inboxes.old k b) }
    requires takers { (k : ℕ) (b : ReplyBox) → k < length inboxes.old → (slice_index_or inboxes.old k b).whole.takes ≡ true }
    requires ends { (k : ℕ) (e : BenchEnd) (b : NoteBox) → k < vec_len ends → IsReplicaOf seat.old (slice_index_or boxes.old k b) inboxes.old (slice_index_or ends.items k e) }
    requires room { vec_len journals.old + vec_len ends ≤ vec_capacity journals.old }
    ensures seat { HasTickets (flat_map (λ e. e.seat.drawn) ends.items) (sum_by (λ e. e.seat.left) ends.items) seat.old seat.new }
    ensures notes { (k : ℕ) (b : NoteBox) (e : BenchEnd) → k < length boxes.old → IsToldNotes (slice_index_or boxes.old k b) (slice_index_or ends.items k e) }
    ensures replies { (k c : ℕ) (b : ReplyBox) (e : BenchEnd) (r : ReplyRoute) → k < vec_len ends → c < length inboxes.old
        → IsToldReplies (slice_index_or inboxes.old c b) (slice_index_or (slice_index_or ends.items k e).routes.items c r) }
    ensures journals { journals.new.items ≡ journals.old.items ++ map (λ e. e.replica.journal) ends.items }
{
    for (replica, end) in ends.into_iter().enumerate() {
        take_in_replica(rt, clock, seat, &mut boxes[replica], inboxes, journals, end);
    }
}

// The end of one replica.
fn take_in_replica<R: Wait>(
    rt: &R,
    clock: &Clock,
    seat: &mut Seat,
    inbox: &mut NoteBox,
    inboxes: &mut [ReplyBox],
    journals: &mut Vec<List<JournalEntry>>,
    end: BenchEnd,
)
    requires own { seat.old.clock ≡ clock.now.id }
    requires inbox { IsOwnNotes inbox.old }
    requires inboxes { (k : ℕ) (b : ReplyBox) → k < length inboxes.old → IsOwnReplies (slice_index_or inboxes.old k b) }
    requires takers { (k : ℕ) (b : ReplyBox) → k < length inboxes.old → (slice_index_or inboxes.old k b).whole.takes ≡ true }
    requires end { IsReplicaOf seat.old inbox.old inboxes.old end }
    requires room { vec_len journals.old < vec_capacity journals.old }
    ensures seat { HasTickets end.seat.drawn end.seat.left seat.old seat.new }
    ensures notes { IsToldNotes inbox.old end }
    ensures inboxes { length inboxes.new ≡ length inboxes.old }
    ensures same { (k : ℕ) (b : ReplyBox) → k < length inboxes.old → IsSameInbox (slice_index_or inboxes.old k b) (slice_index_or inboxes.new k b) }
    ensures replies { (k : ℕ) (b : ReplyBox) (r : ReplyRoute) → k < length inboxes.old → IsToldReplies (slice_index_or inboxes.old k b) (slice_index_or end.routes.items k r) }
    ensures journals { journals.new.items ≡ journals.old.items ++ end.replica.journal ∷ [] }
    ensures room { vec_capacity journals.new ≡ vec_capacity journals.old }
{
    let BenchEnd {
        replica,
        seat: own,
        taker,
        routes,
    } = end;
    clock.join(seat, own);
    inbox.post.gather_taker(rt, &mut inbox.whole, taker);
    take_in_reply_routes(rt, inboxes, routes);
    journals.push_reserved(replica.into_journal());
}

// The senders of one replica, each to the inbox of its client, to which the taker is back.
fn take_in_reply_routes<R: Wait>(rt: &R, inboxes: &mut [ReplyBox], routes: Vec<ReplyRoute>)
    requires inboxes { (k : ℕ) (b : ReplyBox) → k < length inboxes.old → IsOwnReplies (slice_index_or inboxes.old k b) }
    requires takers { (k : ℕ) (b : ReplyBox) → k < length inboxes.old → (slice_index_or inboxes.old k b).whole.takes ≡ true }
    requires routes { AreReplyRoutes inboxes.old routes.items }
    ensures inboxes { length inboxes.new ≡ length inboxes.old }
    ensures same { (k : ℕ) (b : ReplyBox) → k < length inboxes.old → IsSameInbox (slice_index_or inboxes.old k b) (slice_index_or inboxes.new k b) }
    ensures replies { (k : ℕ) (b : ReplyBox) (r : ReplyRoute) → k < length inboxes.old → IsToldReplies (slice_index_or inboxes.old k b) (slice_index_or routes.items k r) }
{
    for (client, route) in routes.into_iter().enumerate() {
        take_in_reply_route(rt, &mut inboxes[client], route);
    }
}

// One sender, to its inbox.
fn take_in_reply_route<R: Wait>(rt: &R, to: &mut ReplyBox, route: ReplyRoute)
    requires to { IsOwnReplies to.old }
    requires taker { to.old.whole.takes ≡ true }
    requires route { route.pass.box ≡ to.old.whole.box }
    ensures same { IsSameInbox to.old to.new }
    ensures told { IsToldReplies to.old route }
{
    to.post.gather_sender(rt, &mut to.whole, route.pass);
}
