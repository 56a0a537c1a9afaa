//! What each client and each replica of a run needs.
ghost use Rattle.std.specs.Prelude.{◌≡◌, ◌+◌, ◌*◌, ◌≤◌, map, length, vec_len, All, IfOk, OnOk};
ghost use Rattle.std.specs.Arc.{arc_value};
ghost use Rattle.stale_model.specs.Settings.{AreSettings};
ghost use Rattle.bench_run.specs.JobSteps.{view_of, IsFreshJob};
ghost use Rattle.bench_run.specs.Openings.{first_taker, notes_without, replies_without, CanNotes, CanReplies, AreRepliesGiven, IsSplitBy};
ghost use Rattle.bench_run.specs.Ready.{places, IsReadyReplica, IsReadyClient};

use crate::boxes::{NoteBox, ReplyBox};
use crate::job::JobParts;
use crate::routes::{open_replies, routes_to_clients, routes_to_replicas};
use post_box::{PostBox, TakerPass};
use quorum_client::{Note, Route};
use replica_node::Replica;
use stale_model::{List, Memory, PlanCall, Reply, Settings};
use std::alloc::Global;
use std::sync::{Arc, Wait};
use ticket_clock::{Clock, Seat};

/// What a client needs to make its calls.
#[derive(Drop)]
pub(crate) struct ClientParts {
    pub(crate) calls: List<PlanCall>,
    /// The routes, the one to replica k at place k.
    pub(crate) routes: Vec<Route>,
    pub(crate) inbox: Arc<PostBox<Reply>>,
    pub(crate) taker: TakerPass<Reply>,
    pub(crate) seat: Seat,
}

impl ClientParts {
    /// What this client needs to make these calls, and its inbox. The only error is want of memory.
    pub(crate) fn prepare<R: Wait>(
        rt: &R,
        alloc: Global,
        settings: &Settings,
        clock: &Clock,
        seat: &mut Seat,
        client: u32,
        calls: List<PlanCall>,
        boxes: &mut Vec<NoteBox>,
    ) -> Result<(ReplyBox, ClientParts), Memory>
        requires settings { AreSettings settings.now }
        requires own { seat.old.clock ≡ clock.now.id }
        requires left { 2 * settings.now.calls ≤ seat.old.left }
        requires calls { length calls ≡ settings.now.calls }
        requires many { vec_len boxes.old ≡ settings.now.replicas }
        requires boxes { All (CanNotes client (2 * settings.now.calls + 1)) boxes.old.items }
        ensures seat { OnOk result (IsSplitBy (2 * settings.now.calls) seat.old seat.new) }
        ensures boxes { OnOk result (boxes.new.items
            ≡ map (notes_without client (2 * settings.now.calls + 1)) boxes.old.items) }
        ensures inbox { IfOk result (λ made.
            AreRepliesGiven 0 (settings.now.replicas * settings.now.calls) made.0) }
        ensures calls { IfOk result (λ made. made.1.calls ≡ calls) }
        ensures client { IfOk result (λ made.
            IsReadyClient settings.now clock.now client made.0 boxes.old.items made.1) }
    {
        let (inbox, taker) = open_replies(rt, alloc, settings.replicas * settings.calls)?;
        let routes = routes_to_replicas(rt, alloc, boxes, client, 2 * settings.calls + 1)?;
        let post = Arc::try_clone(&inbox.post).map_err(|_| Memory)?;
        let seat = clock.split(seat, (2 * settings.calls) as u64);
        let parts = ClientParts {
            calls,
            routes,
            inbox: post,
            taker,
            seat,
        };
        Ok((inbox, parts))
    }
}

/// What this replica needs to serve, where this is its box with the taker of it. The only error is want of memory.
pub(crate) fn replica_parts<R: Wait>(
    rt: &R,
    alloc: Global,
    settings: &Settings,
    clock: &Arc<Clock>,
    seat: &mut Seat,
    replica: u32,
    notes: &NoteBox,
    taker: TakerPass<Note>,
    inboxes: &mut Vec<ReplyBox>,
) -> Result<JobParts, Memory>
    requires settings { AreSettings settings.now }
    requires own { seat.old.clock ≡ (arc_value clock.now).id }
    requires left { places settings.now ≤ seat.old.left }
    requires taker { taker ≡ first_taker (arc_value notes.now.post) }
    requires many { vec_len inboxes.old ≡ settings.now.clients }
    requires inboxes { All (CanReplies replica settings.now.calls) inboxes.old.items }
    ensures seat { OnOk result (IsSplitBy (places settings.now) seat.old seat.new) }
    ensures inboxes { OnOk result (inboxes.new.items
        ≡ map (replies_without replica settings.now.calls) inboxes.old.items) }
    ensures fresh { IfOk result IsFreshJob }
    ensures replica { IfOk result (λ parts.
        IsReadyReplica settings.now (arc_value clock.now) replica notes.now inboxes.old.items (view_of parts)) }
{
    let places = 2 * (settings.clients * settings.calls);
    let node = Replica::prepare(alloc, replica, settings.keys, places)?;
    let routes = routes_to_clients(rt, alloc, inboxes, replica, settings.calls)?;
    let inbox = Arc::try_clone(&notes.post).map_err(|_| Memory)?;
    let same = Arc::try_clone(clock).map_err(|_| Memory)?;
    let seat = clock.split(seat, places as u64);
    JobParts::new(alloc, same, *settings, node, seat, inbox, taker, routes)
}
