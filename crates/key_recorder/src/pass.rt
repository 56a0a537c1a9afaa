//! The pass of a client: its way to the box of each shard.
ghost use Rattle.std.specs.Prelude.{◌≡◌, ◌<◌, ◌≤◌, true, false, [], length, OnOk, map, slice_index_or, All};
ghost use Rattle.std.specs.Arc.{arc_value};
ghost use Rattle.key_recorder.specs.declared.pass.Lane.TheVariants.{Here};
ghost use Rattle.key_recorder.specs.Letters.{sender_of};
ghost use Rattle.key_recorder.specs.Recorders.{LaneView, IsSettled, without_sender};
ghost use Rattle.key_recorder.specs.Making.{first_lane, with_lane};
ghost use Rattle.key_recorder.specs.Passes.{lane_of, number_of, sent_on, IsOpenLane, IsEnded};

use crate::letters::RecordLetter;
use post_box::{PostBox, SenderPass};
use stale_model::Memory;
use std::marker::Model;
use std::mem;
use std::snapshot::Snapshot;
use std::sync::{Arc, Wait};

/// The way of a client to the box of one shard: its sender, or what the sender was before it went
/// back.
#[derive(Drop)]
pub(crate) enum Lane {
    Here(SenderPass<RecordLetter>),
    Gone(Snapshot<SenderPass<RecordLetter>>),
}

/// The pass of a client. A contract sees the client's number, of each shard what was sent there and
/// how many letters are left, and whether the pass was closed.
#[derive(Drop)]
pub struct RecorderPass {
    pub(crate) client: u32,
    pub(crate) lanes: Vec<Lane>,
    pub(crate) closed: bool,
}

impl Model for RecorderPass {
    ghost use Rattle.key_recorder.specs.Recorders.{PassView};

    ghost Value = { PassView };

    ghost use Rattle.key_recorder.specs.Making.{first_lane, with_lane};
    ghost use Rattle.key_recorder.specs.Passes.{view_of, IsPass};

    ghost view = { view_of };

    ghost invariant = { IsPass };
}

impl RecorderPass {
    /// One lane more, by a sender that has sent nothing.
    pub(crate) fn add_lane(&mut self, sender: SenderPass<RecordLetter>) -> Result<(), Memory>
        requires not_closed { self.old.closed ≡ false }
        requires number { sender.number ≡ self.old.client }
        requires none { sender.sent ≡ [] }
        requires left { 1 ≤ sender.budget }
        ensures { OnOk result (self.new ≡ with_lane (first_lane sender.box sender.budget) self.old) }
    {
        self.lanes.push(Lane::Here(sender)).map_err(|_| Memory)
    }

    /// Takes the sender of one lane, whose letters stay known.
    pub(crate) fn give_back(&mut self, shard: usize) -> SenderPass<RecordLetter>
        requires closed { self.old.closed ≡ true }
        requires there { shard < length self.old.lanes }
        requires here { (l : LaneView) → (slice_index_or self.old.lanes shard l).here ≡ true }
        ensures number { result.number ≡ self.old.client }
        ensures own { (l : LaneView) → (slice_index_or self.old.lanes shard l).box ≡ result.box }
        ensures sent { (l : LaneView) → (slice_index_or self.old.lanes shard l).sent ≡ result.sent }
        ensures ended { IsEnded self.old.client result.sent }
        ensures settled { IsSettled shard self.old self.new }
    {
        take_sender(&mut self.lanes[shard])
    }
}

// Takes the sender of a lane, whose letters stay known.
fn take_sender(lane: &mut Lane) -> SenderPass<RecordLetter>
    requires { (lane_of lane.old).here ≡ true }
    ensures was { lane.old ≡ Here result }
    ensures lane { lane_of lane.new ≡ without_sender (lane_of lane.old) }
    ensures number { number_of lane.new ≡ number_of lane.old }
{
    let was = match lane {
        Lane::Here(pass) => Snapshot::of(pass),
        Lane::Gone(_) => unreachable!(),
    };
    match mem::replace(lane, Lane::Gone(was)) {
        Lane::Here(pass) => pass,
        Lane::Gone(_) => unreachable!(),
    }
}

/// Sends a letter on a lane.
pub(crate) fn send_on<R: Wait>(
    rt: &R,
    post: &PostBox<RecordLetter>,
    lane: &mut Lane,
    letter: RecordLetter,
)
    requires own { (lane_of lane.old).box ≡ post.now }
    requires lane { IsOpenLane (sender_of letter) lane.old }
    ensures { lane.new ≡ sent_on letter lane.old }
{
    match lane {
        Lane::Here(pass) => post.send(rt, pass, letter),
        Lane::Gone(_) => unreachable!(),
    }
}

/// Sends a letter on every lane, each through its own box.
pub(crate) fn send_on_all<R: Wait>(
    rt: &R,
    boxes: &[Arc<PostBox<RecordLetter>>],
    lanes: &mut Vec<Lane>,
    letter: RecordLetter,
)
    requires own { map (λ l. l.box) (map lane_of lanes.old.items)
        ≡ map (λ b. arc_value b) boxes.now }
    requires lanes { All (IsOpenLane (sender_of letter)) lanes.old.items }
    ensures { lanes.new.items ≡ map (sent_on letter) lanes.old.items }
{
    for k in 0..boxes.len() {
        send_on(rt, &boxes[k], &mut lanes[k], letter);
    }
}
