//! The log of a shard.
ghost use Rattle.std.specs.Prelude.{◌≡◌, ℕ, ◌+◌, ◌<◌, ◌≤◌, ◌||◌, ◌↔◌, Bool, IsTrue, All, Some, true, false, List, [], ◌∷◌, ◌++◌, length, None, slice_index_or, vec_len, vec_capacity};
ghost use mathlib.Core.List.{IsPrefix};
ghost use Rattle.crossbeam_queue.specs.Fifo.{Held};
ghost use Rattle.post_box.specs.Boxes.{TakerView};
ghost use Rattle.key_recorder.specs.declared.letters.RecordLetter.{RecordLetter};
ghost use Rattle.key_recorder.specs.Letters.{entries_in, is_end_of, AreEnded};
ghost use Rattle.key_recorder.specs.Recorders.{IsLaneOf, IsTold, IsSettled};
ghost use Rattle.key_recorder.specs.Logs.{taken_by, empties_of};

use crate::letters::RecordLetter;
use crate::pass::RecorderPass;
use post_box::{PostBox, TakerPass, Whole};
use stale_model::Entry;
use std::marker::Model;
use std::sync::{Arc, Wait};
use std::thread;

/// The log of a shard. A contract sees its box, how many clients there are, its shard, the letters
/// that it took, how often it found none, and the clients that were settled.
#[derive(Drop)]
pub struct ShardLog {
    pub(crate) shard: u32,
    pub(crate) clients: u32,
    pub(crate) post: Arc<PostBox<RecordLetter>>,
    pub(crate) whole: Whole<RecordLetter>,
    // The taker, until the first client is settled.
    pub(crate) taker: Option<TakerPass<RecordLetter>>,
    // Of each client, whether its end was taken.
    pub(crate) ended: Vec<bool>,
    pub(crate) entries: Vec<Entry>,
}

impl Model for ShardLog {
    ghost use Rattle.key_recorder.specs.Recorders.{LogView};

    ghost Value = { LogView };

    ghost use Rattle.key_recorder.specs.Logs.{view_of, IsLog};

    ghost view = { view_of };

    ghost invariant = { IsLog };
}

impl ShardLog {
    /// Whether the ends of all clients were taken.
    pub fn is_drained(&self) -> bool
        ensures { IsTrue result ↔ AreEnded self.now.clients self.now.taken }
    {
        are_all(&self.ended)
    }

    /// Takes one letter, or finds that the box held none at one moment of the call. It takes no
    /// memory.
    pub fn step<R: Wait>(&mut self, rt: &R) -> bool
        requires { AreEnded self.old.clients self.old.taken → ⊥ }
        ensures taken { result ≡ true → (x : RecordLetter) × (self.new ≡ record self.old {
          taken = self.old.taken ++ x ∷ [];
        }) }
        ensures none { result ≡ false → self.new ≡ record self.old {
          empties = self.old.empties + 1;
        } }
        ensures empty { result ≡ false → Held 0 (λ (items : List RecordLetter).
            length self.old.taken + length items ≤ self.old.box.capacity) }
    {
        let Some(mut taker) = self.taker.take() else {
            unreachable!()
        };
        let letter = self.post.take(rt, &mut taker);
        self.taker = Some(taker);
        match letter {
            Some(letter) => {
                keep(&mut self.entries, &mut self.ended, letter);
                true
            }
            None => false,
        }
    }

    /// The entries that were taken so far, in the order in which they were taken.
    pub fn entries(&self) -> &[Entry]
        ensures { result.now ≡ entries_in self.now.taken }
    {
        self.entries.as_slice()
    }

    /// Takes letters until the ends of all clients were taken. It takes no memory.
    pub fn drain<R: Wait>(&mut self, rt: &R)
        ensures ended { AreEnded self.new.clients self.new.taken }
        ensures more { IsPrefix self.old.taken self.new.taken }
        ensures rest { self.new ≡ record self.old {
          taken = self.new.taken;
          empties = self.new.empties;
        } }
    {
        for _ in rt.forever() {
            if self.is_drained() {
                return;
            }
            if !self.step(rt) {
                thread::yield_now();
            }
        }
        unreachable!()
    }

    /// Takes back the pass's sender of this shard, once the log was drained and the pass closed.
    /// The log has then exactly what the client sent, each entry once, and in its order.
    pub fn settle<R: Wait>(&mut self, rt: &R, pass: &mut RecorderPass)
        requires ended { AreEnded self.old.clients self.old.taken }
        requires closed { pass.old.closed ≡ true }
        requires client { pass.old.client < self.old.clients }
        requires lane { IsLaneOf self.old pass.old }
        ensures told { IsTold self.old pass.old }
        ensures log { self.new ≡ record self.old {
          settled = self.old.settled ++ pass.old.client ∷ [];
        } }
        ensures pass { IsSettled self.old.shard pass.old pass.new }
    {
        recall(rt, &self.post, &mut self.taker, &mut self.whole);
        let sender = pass.give_back(self.shard as usize);
        self.post.gather_sender(rt, &mut self.whole, sender);
    }
}

// Whether all of these are true.
fn are_all(ended: &[bool]) -> bool
    ensures { IsTrue result ↔ All (λ b. IsTrue b) ended.now }
{
    ended.iter().all(|&ended| ended)
}

// Keeps a letter that was taken: an entry stands last, and of an end it is known that it came.
fn keep(entries: &mut Vec<Entry>, ended: &mut Vec<bool>, letter: RecordLetter)
    requires { vec_len entries.old < vec_capacity entries.old }
    ensures entries { entries.new.items ≡ entries.old.items ++ entries_in (letter ∷ []) }
    ensures room { vec_capacity entries.new ≡ vec_capacity entries.old }
    ensures as_many { vec_len ended.new ≡ vec_len ended.old }
    ensures ended { (k : ℕ) (b : Bool) → k < vec_len ended.old
        → slice_index_or ended.new.items k b
        ≡ slice_index_or ended.old.items k b || is_end_of k letter }
{
    match letter {
        RecordLetter::Entry(entry) => entries.push_reserved(entry),
        RecordLetter::End { client } => {
            if (client as usize) < ended.len() {
                ended[client as usize] = true;
            }
        }
    }
}

// The taker goes back to the whole of its box, where it has not gone back before.
fn recall<R: Wait>(
    rt: &R,
    post: &PostBox<RecordLetter>,
    taker: &mut Option<TakerPass<RecordLetter>>,
    whole: &mut Whole<RecordLetter>,
)
    requires own { whole.old.box ≡ post.now }
    requires taker { (t : TakerView RecordLetter) → taker.old ≡ Some t → t.box ≡ post.now }
    requires takes { taker.old ≡ None → whole.old.takes ≡ true }
    ensures taker { taker.new ≡ None }
    ensures whole { whole.new ≡ record whole.old {
      takes = true;
      taken = taken_by taker.old whole.old;
      empties = empties_of taker.old whole.old;
    } }
{
    if let Some(taker) = taker.take() {
        post.gather_taker(rt, whole, taker);
    }
}
