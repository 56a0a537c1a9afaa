//! The boxes of a run as they are opened, and the routes to them.
ghost use Rattle.std.specs.Prelude.{◌≡◌, ◌≤◌, map, length, All, IfOk, OnOk};
ghost use Rattle.std.specs.Arc.{arc_value};
ghost use Rattle.std.specs.List.{AllZip};
ghost use Rattle.bench_run.specs.Openings.{boxes_of, first_taker, notes_without, replies_without, CanNotes, CanReplies, AreNotesGiven, AreRepliesGiven, IsFirstRoute, IsFirstReplyRoute};

use crate::boxes::{NoteBox, ReplyBox};
use crate::job::ReplyRoute;
use post_box::{PostBox, TakerPass};
use quorum_client::{Note, Route};
use stale_model::{Memory, Reply};
use std::alloc::Global;
use std::sync::{Arc, Wait};

/// A box of each replica with room for so many notes, and the takers of these boxes. The only error is want of memory.
pub(crate) fn open_boxes<R: Wait>(
    rt: &R,
    alloc: Global,
    replicas: u32,
    capacity: u32,
) -> Result<(Vec<NoteBox>, Vec<TakerPass<Note>>), Memory>
    requires { 1 ≤ capacity }
    ensures many { IfOk result (λ made. length made.0.items ≡ replicas) }
    ensures boxes { IfOk result (λ made. All (AreNotesGiven 0 capacity) made.0.items) }
    ensures takers { IfOk result (λ made. made.1.items
        ≡ map first_taker (boxes_of made.0.items)) }
{
    let mut boxes = Vec::new(alloc);
    let mut takers = Vec::new(alloc);
    for _ in 0..replicas {
        let (notes, taker) = open_notes(rt, alloc, capacity)?;
        boxes.push(notes).map_err(|_| Memory)?;
        takers.push(taker).map_err(|_| Memory)?;
    }
    Ok((boxes, takers))
}

// The box of a replica with room for so many notes, and its taker.
fn open_notes<R: Wait>(
    rt: &R,
    alloc: Global,
    capacity: u32,
) -> Result<(NoteBox, TakerPass<Note>), Memory>
    requires { 1 ≤ capacity }
    ensures notes { IfOk result (λ made. AreNotesGiven 0 capacity made.0) }
    ensures taker { IfOk result (λ made. made.1 ≡ first_taker (arc_value made.0.post)) }
{
    let (post, mut whole) = PostBox::<Note>::open(alloc, capacity)?;
    let taker = post.split_taker(rt, &mut whole);
    let post = Arc::new(alloc, post).map_err(|_| Memory)?;
    Ok((NoteBox { post, whole }, taker))
}

/// The inbox of a client with room for so many replies, and its taker. The only error is want of memory.
pub(crate) fn open_replies<R: Wait>(
    rt: &R,
    alloc: Global,
    capacity: u32,
) -> Result<(ReplyBox, TakerPass<Reply>), Memory>
    requires { 1 ≤ capacity }
    ensures replies { IfOk result (λ made. AreRepliesGiven 0 capacity made.0) }
    ensures taker { IfOk result (λ made. made.1 ≡ first_taker (arc_value made.0.post)) }
{
    let (post, mut whole) = PostBox::<Reply>::open(alloc, capacity)?;
    let taker = post.split_taker(rt, &mut whole);
    let post = Arc::new(alloc, post).map_err(|_| Memory)?;
    Ok((ReplyBox { post, whole }, taker))
}

/// The routes of a client to these boxes, box by box, with so much of the budget of each. The only error is want of
/// memory.
pub(crate) fn routes_to_replicas<R: Wait>(
    rt: &R,
    alloc: Global,
    boxes: &mut Vec<NoteBox>,
    client: u32,
    budget: u32,
) -> Result<Vec<Route>, Memory>
    requires { All (CanNotes client budget) boxes.old.items }
    ensures boxes { OnOk result (boxes.new.items
        ≡ map (notes_without client budget) boxes.old.items) }
    ensures routes { IfOk result (λ routes.
        AllZip (IsFirstRoute client budget) boxes.old.items routes.items) }
{
    let mut routes = Vec::new(alloc);
    for notes in boxes.iter_mut() {
        let route = route_to_replica(rt, notes, client, budget)?;
        routes.push(route).map_err(|_| Memory)?;
    }
    Ok(routes)
}

// The route of a client to the box of a replica, with so much of its budget.
fn route_to_replica<R: Wait>(
    rt: &R,
    notes: &mut NoteBox,
    client: u32,
    budget: u32,
) -> Result<Route, Memory>
    requires { CanNotes client budget notes.old }
    ensures notes { OnOk result (notes.new ≡ notes_without client budget notes.old) }
    ensures route { IfOk result (IsFirstRoute client budget notes.old) }
{
    let to = Arc::try_clone(&notes.post).map_err(|_| Memory)?;
    let pass = to.split_sender(rt, &mut notes.whole, client, budget);
    Ok(Route { to, pass })
}

/// The routes of a replica to these inboxes, inbox by inbox, with so much of the budget of each. The only error is want
/// of memory.
pub(crate) fn routes_to_clients<R: Wait>(
    rt: &R,
    alloc: Global,
    inboxes: &mut Vec<ReplyBox>,
    replica: u32,
    budget: u32,
) -> Result<Vec<ReplyRoute>, Memory>
    requires { All (CanReplies replica budget) inboxes.old.items }
    ensures inboxes { OnOk result (inboxes.new.items
        ≡ map (replies_without replica budget) inboxes.old.items) }
    ensures routes { IfOk result (λ routes.
        AllZip (IsFirstReplyRoute replica budget) inboxes.old.items routes.items) }
{
    let mut routes = Vec::new(alloc);
    for inbox in inboxes.iter_mut() {
        let route = route_to_client(rt, inbox, replica, budget)?;
        routes.push(route).map_err(|_| Memory)?;
    }
    Ok(routes)
}

// The route of a replica to the inbox of a client, with so much of its budget.
fn route_to_client<R: Wait>(
    rt: &R,
    inbox: &mut ReplyBox,
    replica: u32,
    budget: u32,
) -> Result<ReplyRoute, Memory>
    requires { CanReplies replica budget inbox.old }
    ensures inbox { OnOk result (inbox.new ≡ replies_without replica budget inbox.old) }
    ensures route { IfOk result (IsFirstReplyRoute replica budget inbox.old) }
{
    let to = Arc::try_clone(&inbox.post).map_err(|_| Memory)?;
    let pass = to.split_sender(rt, &mut inbox.whole, replica, budget);
    Ok(ReplyRoute { to, pass })
}
