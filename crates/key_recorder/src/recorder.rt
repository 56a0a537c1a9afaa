//! The recorder that the clients share.
ghost use Rattle.std.specs.Prelude.{◌≡◌, ◌<◌, true, false, length, map, slice_index_or};
ghost use Rattle.key_recorder.specs.declared.letters.RecordLetter.TheVariants.{End};
ghost use Rattle.key_recorder.specs.Recorders.{LaneView, IsOf, shard_of, with_letter, IsRecorded};

use crate::letters::RecordLetter;
use crate::pass::{RecorderPass, send_on, send_on_all};
use post_box::PostBox;
use stale_model::Entry;
use std::marker::Model;
use std::sync::{Arc, Wait};

/// The boxes of the shards, which all clients share. A key is of the shard that its number leaves
/// on division by the number of shards. A contract sees the boxes, by shard.
#[derive(Drop)]
pub struct Recorder {
    pub(crate) boxes: Vec<Arc<PostBox<RecordLetter>>>,
}

impl Model for Recorder {
    ghost use Rattle.std.specs.Prelude.{◌≤◌, map, vec_len};
    ghost use Rattle.std.specs.Arc.{arc_value};
    ghost use Rattle.key_recorder.specs.Recorders.{RecorderView};

    ghost Value = { RecorderView };

    ghost view = { λ r. record { boxes = map (λ b. arc_value b) r.boxes.items } };

    ghost invariant = { λ r. 1 ≤ vec_len r.boxes };
}

impl Recorder {
    /// Sends an entry of the pass's client at once through the box of its key's shard. It takes no
    /// memory, and it has no refusal: the box has room for all calls of the plan.
    pub fn record<R: Wait>(&self, rt: &R, pass: &mut RecorderPass, entry: Entry)
        requires own { IsOf self.now pass.old }
        requires not_closed { pass.old.closed ≡ false }
        requires client { entry.client ≡ pass.old.client }
        requires left { (l : LaneView) → 1 < (slice_index_or pass.old.lanes
            (shard_of (length pass.old.lanes) entry.key) l).left }
        ensures { IsRecorded entry pass.old pass.new }
    {
        let shard = entry.key as usize % self.boxes.len();
        let letter = RecordLetter::Entry(entry);
        send_on(rt, &self.boxes[shard], &mut pass.lanes[shard], letter);
    }

    /// Tells every shard that the pass's client sends no more.
    pub fn close<R: Wait>(&self, rt: &R, pass: &mut RecorderPass)
        requires own { IsOf self.now pass.old }
        requires not_closed { pass.old.closed ≡ false }
        ensures { pass.new ≡ record pass.old {
          lanes = map (with_letter (End pass.old.client)) pass.old.lanes;
          closed = true;
        } }
    {
        let letter = RecordLetter::End {
            client: pass.client,
        };
        send_on_all(rt, &self.boxes, &mut pass.lanes, letter);
        pass.closed = true;
    }
}
