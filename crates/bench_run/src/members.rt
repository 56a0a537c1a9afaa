//! The clock and the boxes of a run, with the parts of its replicas and its clients.
ghost use Rattle.std.specs.Prelude.{◌≡◌, ◌+◌, ◌*◌, ◌≤◌, length, map, All, IfOk, OnOk};
ghost use Rattle.std.specs.Arc.{arc_value};
ghost use Rattle.ticket_clock.specs.Seats.{IsFresh};
ghost use Rattle.stale_model.specs.Settings.{AreSettings};
ghost use Rattle.quorum_client.specs.Plans.{IsWhole};
ghost use Rattle.bench_run.specs.Openings.{boxes_of, inboxes_of, first_taker, AreNotesGiven, AreRepliesGiven, IsSplitBy};
ghost use Rattle.bench_run.specs.Ready.{places, tickets, plan_in, AreReadyClients, AreReadyReplicas, AreReadyBoxes, IsReadyClock};

use crate::boxes::{NoteBox, ReplyBox};
use crate::job::JobParts;
use crate::parts::{ClientParts, replica_parts};
use crate::routes::open_boxes;
use post_box::TakerPass;
use quorum_client::Note;
use stale_model::{Memory, Plan, Settings};
use std::alloc::Global;
use std::sync::{Arc, Wait};
use ticket_clock::{Clock, Seat};

/// The clock and the boxes of a run, with the parts of its replicas and its clients.
#[derive(Drop)]
pub(crate) struct Members {
    pub(crate) clock: Arc<Clock>,
    // The seat from which all others were split off.
    pub(crate) seat: Seat,
    pub(crate) boxes: Vec<NoteBox>,
    pub(crate) inboxes: Vec<ReplyBox>,
    pub(crate) replicas: Vec<JobParts>,
    pub(crate) clients: Vec<ClientParts>,
}

impl Members {
    /// All members of a run with this plan. The only error is want of memory.
    pub(crate) fn prepare<R: Wait>(
        rt: &R,
        alloc: Global,
        settings: &Settings,
        plan: Plan,
    ) -> Result<Members, Memory>
        requires settings { AreSettings settings.now }
        requires plan { IsWhole settings.now plan }
        ensures plan { IfOk result (λ m. plan_in m.clients.items ≡ plan) }
        ensures clock { IfOk result (λ m. IsReadyClock settings.now (arc_value m.clock) m.seat) }
        ensures boxes { IfOk result (λ m. AreReadyBoxes settings.now m.boxes.items m.inboxes.items) }
        ensures replicas { IfOk result (λ m. AreReadyReplicas settings.now (arc_value m.clock)
            m.boxes.items m.inboxes.items m.replicas.items) }
        ensures clients { IfOk result (λ m. AreReadyClients settings.now (arc_value m.clock)
            m.inboxes.items m.boxes.items m.clients.items) }
    {
        let (clock, mut seat) = open_clock(alloc, settings)?;
        let capacity = settings.clients * (2 * settings.calls + 1);
        let (mut boxes, takers) = open_boxes(rt, alloc, settings.replicas, capacity)?;
        let (mut inboxes, clients) = prepare_clients(
            rt, alloc, settings, &clock, &mut seat, plan, &mut boxes,
        )?;
        let replicas = prepare_replicas(
            rt,
            alloc,
            settings,
            &clock,
            &mut seat,
            boxes.as_slice(),
            takers,
            &mut inboxes,
        )?;
        Ok(Members {
            clock,
            seat,
            boxes,
            inboxes,
            replicas,
            clients,
        })
    }
}

/// How many tickets a run of these settings may draw.
pub(crate) fn tickets_of(settings: &Settings) -> u64
    requires { AreSettings settings.now }
    ensures { result ≡ tickets settings.now }
{
    let calls = (settings.clients * settings.calls) as u64;
    calls * (2 * settings.replicas as u64 + 2)
}

// A clock with all tickets of a run, and its first seat.
fn open_clock(alloc: Global, settings: &Settings) -> Result<(Arc<Clock>, Seat), Memory>
    requires { AreSettings settings.now }
    ensures budget { IfOk result (λ made. (arc_value made.0).budget ≡ tickets settings.now) }
    ensures seat { IfOk result (λ made. IsFresh (arc_value made.0) (tickets settings.now) 1 made.1) }
{
    let (clock, seat) = Clock::new(alloc, tickets_of(settings))?;
    let clock = Arc::new(alloc, clock).map_err(|_| Memory)?;
    Ok((clock, seat))
}

// The inboxes and the parts of all clients.
fn prepare_clients<R: Wait>(
    rt: &R,
    alloc: Global,
    settings: &Settings,
    clock: &Clock,
    seat: &mut Seat,
    plan: Plan,
    boxes: &mut Vec<NoteBox>,
) -> Result<(Vec<ReplyBox>, Vec<ClientParts>), Memory>
    requires settings { AreSettings settings.now }
    requires own { seat.old.clock ≡ clock.now.id }
    requires left { settings.now.clients * (2 * settings.now.calls) ≤ seat.old.left }
    requires plan { IsWhole settings.now plan }
    requires many { length boxes.old.items ≡ settings.now.replicas }
    requires boxes { All (AreNotesGiven 0 (settings.now.clients * (2 * settings.now.calls + 1))) boxes.old.items }
    ensures seat { OnOk result (IsSplitBy (settings.now.clients * (2 * settings.now.calls)) seat.old seat.new) }
    ensures same { OnOk result (boxes_of boxes.new.items ≡ boxes_of boxes.old.items) }
    ensures boxes { OnOk result (All (AreNotesGiven settings.now.clients 0) boxes.new.items) }
    ensures many { IfOk result (λ made. length made.0.items ≡ settings.now.clients) }
    ensures inboxes { IfOk result (λ made.
        All (AreRepliesGiven 0 (settings.now.replicas * settings.now.calls)) made.0.items) }
    ensures plan { IfOk result (λ made. plan_in made.1.items ≡ plan) }
    ensures clients { IfOk result (λ made. AreReadyClients settings.now clock.now
        made.0.items boxes.old.items made.1.items) }
{
    let mut inboxes = Vec::new(alloc);
    let mut clients = Vec::new(alloc);
    for calls in plan.clients.into_vec() {
        let client = clients.len() as u32;
        let (inbox, parts) = ClientParts::prepare(
            rt, alloc, settings, clock, seat, client, calls, boxes,
        )?;
        inboxes.push(inbox).map_err(|_| Memory)?;
        clients.push(parts).map_err(|_| Memory)?;
    }
    Ok((inboxes, clients))
}

// The parts of all replicas, of whose boxes these are the takers.
fn prepare_replicas<R: Wait>(
    rt: &R,
    alloc: Global,
    settings: &Settings,
    clock: &Arc<Clock>,
    seat: &mut Seat,
    boxes: &[NoteBox],
    takers: Vec<TakerPass<Note>>,
    inboxes: &mut Vec<ReplyBox>,
) -> Result<Vec<JobParts>, Memory>
    requires settings { AreSettings settings.now }
    requires own { seat.old.clock ≡ (arc_value clock.now).id }
    requires left { settings.now.replicas * places settings.now ≤ seat.old.left }
    requires many { length boxes.now ≡ settings.now.replicas }
    requires takers { takers.items ≡ map first_taker (boxes_of boxes.now) }
    requires many_inboxes { length inboxes.old.items ≡ settings.now.clients }
    requires inboxes { All (AreRepliesGiven 0 (settings.now.replicas * settings.now.calls)) inboxes.old.items }
    ensures seat { OnOk result (IsSplitBy (settings.now.replicas * places settings.now) seat.old seat.new) }
    ensures same { OnOk result (inboxes_of inboxes.new.items ≡ inboxes_of inboxes.old.items) }
    ensures inboxes { OnOk result (All (AreRepliesGiven settings.now.replicas 0) inboxes.new.items) }
    ensures replicas { IfOk result (λ replicas. AreReadyReplicas settings.now (arc_value clock.now)
        boxes.now inboxes.old.items replicas.items) }
{
    let mut replicas = Vec::new(alloc);
    for taker in takers {
        let place = replicas.len();
        let replica = place as u32;
        let notes = &boxes[place];
        let parts = replica_parts(
            rt, alloc, settings, clock, seat, replica, notes, taker, inboxes,
        )?;
        replicas.push(parts).map_err(|_| Memory)?;
    }
    Ok(replicas)
}
