//! Boxes with many senders and one taker. What is taken of a sender is what it sent, in its order,
//! and a letter that a pass has the budget for finds room.
#![tactic(auto)]

ghost use Rattle.std.specs.Prelude.{◌≡◌, ℕ, ◌+◌, ◌-◌, ◌<◌, ◌≤◌, true, false, List, [], ◌∷◌, ◌++◌, length, IfOk, IfSome, IfNone};
ghost use mathlib.Core.List.{IsPrefix};
ghost use Rattle.crossbeam_queue.specs.Passes.{view, IsPassOf};
ghost use Rattle.crossbeam_queue.specs.Fifo.{Held};
ghost use Rattle.ticket_clock.specs.Seats.{times};
ghost use Rattle.post_box.specs.Boxes.{letters_of};
ghost use Rattle.post_box.specs.Views.{unopened, first_whole};

mod passes;
mod rule;
#[cfg(test)]
mod tests;
mod view;

use crossbeam_queue::{Pass, RuledArrayQueue};
pub use passes::{SenderPass, TakerPass, Whole};
use rule::{
    BoxRule, CountEmpty, CutSender, CutTaker, GatherSender, GatherTaker, Open, Picked, Pop, Push,
};
use stale_model::{Memory, Reply};
use std::alloc::Global;
use std::marker::{Brand, Model};
use std::sync::Wait;
use view::View;

/// What goes through a box: plain data that names its sender.
pub trait Letter: Sized + Send {
    ghost use Rattle.std.specs.Prelude.{ℕ, ◌≡◌};

    ghost from: { Self → ℕ };

    /// The number of its sender.
    fn sender(&self) -> u32
        ensures { result ≡ from self.now };
}

impl Letter for Reply {
    ghost from = { λ reply. reply.replica };

    // A reply is sent by its replica.
    fn sender(&self) -> u32 {
        self.replica
    }
}

type Queue<M> = RuledArrayQueue<M, View<M>, BoxRule<M>>;

/// A box of letters, with room for as many as its capacity says. A contract sees its identity and
/// its capacity.
pub struct PostBox<M: Letter> {
    queue: Queue<M>,
}

impl<M: Letter> Model for PostBox<M> {
    ghost use Rattle.post_box.specs.Boxes.{BoxView};
    ghost use Rattle.crossbeam_queue.specs.Passes.{ruled_capacity};

    ghost Value = { BoxView };

    ghost view = { λ b. record {
      id = b.queue.table.shared.table_id;
      capacity = ruled_capacity b.queue;
    } };
}

impl<M: Letter + Drop> Drop for PostBox<M> {
    fn drop(self) {
        let PostBox { queue } = self;
        drop(queue);
    }
}

impl<M: Letter> PostBox<M> {
    /// A box with room for as many letters, and the whole of its rights.
    pub fn open(alloc: Global, capacity: u32) -> Result<(PostBox<M>, Whole<M>), Memory>
        requires { 1 ≤ capacity }
        ensures room { IfOk result (λ made. made.0.capacity ≡ capacity) }
        ensures whole { IfOk result (λ made. made.1 ≡ record {
          box = made.0;
          budget = capacity;
          numbers = [];
          gathered = [];
          sent = [];
          split = false;
          takes = true;
          taken = [];
          empties = 0;
        }) }
    {
        match Queue::ruled(alloc, capacity as usize) {
            Ok((queue, fresh)) => {
                let pass = opened::<M, Brand>(&queue, fresh, capacity);
                Ok((PostBox { queue }, Whole { pass }))
            }
            Err(_) => Err(Memory),
        }
    }

    /// Sends a letter, which finds room, since all budgets and all letters together are no more
    /// than the capacity.
    pub fn send<R: Wait>(&self, rt: &R, pass: &mut SenderPass<M>, letter: M)
        requires own { pass.old.box ≡ self.now }
        requires budget { 1 ≤ pass.old.budget }
        requires sender { M.from letter ≡ pass.old.number }
        ensures { pass.new ≡ record pass.old {
          sent = pass.old.sent ++ letter ∷ [];
          budget = pass.old.budget - 1;
        } }
    {
        match self.queue.push_as::<Push, R>(rt, &mut pass.pass, letter) {
            Ok(()) => {}
            Err(_) => unreachable!(),
        }
    }

    /// Takes the oldest letter. Where it answers none, the box was empty at one moment of the call,
    /// and the pass counts that.
    pub fn take<R: Wait>(&self, rt: &R, pass: &mut TakerPass<M>) -> Option<M>
        requires own { pass.old.box ≡ self.now }
        ensures some { IfSome result (λ x. pass.new ≡ record pass.old {
          taken = pass.old.taken ++ x ∷ [];
        }) }
        ensures most { IfSome result (λ x. length pass.new.taken ≤ self.now.capacity) }
        ensures none { IfNone result (pass.new ≡ record pass.old {
          empties = pass.old.empties + 1;
        }) }
        ensures empty { IfNone result (Held 0 (λ (items : List M).
            length pass.old.taken + length items ≤ pass.old.box.capacity)) }
    {
        match self.queue.pop_as::<Pop, R>(rt, &mut pass.pass) {
            Some(letter) => Some(letter),
            None => {
                self.queue.another::<CountEmpty>(&mut pass.pass);
                None
            }
        }
    }
}

impl<M: Letter> PostBox<M> {
    /// Splits off a sender of a number that was not given out before, with so much of the budget.
    pub fn split_sender<R: Wait>(
        &self,
        _rt: &R,
        whole: &mut Whole<M>,
        number: u32,
        budget: u32,
    ) -> SenderPass<M>
        requires own { whole.old.box ≡ self.now }
        requires new { times number whole.old.numbers ≡ 0 }
        requires budget { budget ≤ whole.old.budget }
        ensures sender { result ≡ record {
          box = self.now;
          number = number;
          sent = [];
          budget = budget;
        } }
        ensures whole { whole.new ≡ record whole.old {
          budget = whole.old.budget - budget;
          numbers = whole.old.numbers ++ number ∷ [];
        } }
    {
        cut::<M, Brand>(self, whole, number, budget)
    }

    /// Splits off the taker, with what the whole itself has taken. There is one.
    pub fn split_taker<R: Wait>(&self, _rt: &R, whole: &mut Whole<M>) -> TakerPass<M>
        requires own { whole.old.box ≡ self.now }
        requires new { whole.old.split ≡ false }
        ensures taker { result ≡ record {
          box = self.now;
          taken = whole.old.taken;
          empties = whole.old.empties;
        } }
        ensures whole { whole.new ≡ record whole.old {
          split = true;
          takes = false;
          taken = [];
          empties = 0;
        } }
    {
        TakerPass {
            pass: self.queue.another::<CutTaker>(&mut whole.pass),
        }
    }

    /// Takes in a sender. Where the taker is here, what was taken of this sender, and of each that
    /// is here, is a beginning of what it sent, and each letter taken is of a sender whose number
    /// was given out. The step that joins the passes tells nothing, so a look follows, which tells
    /// this.
    pub fn gather_sender<R: Wait>(&self, _rt: &R, whole: &mut Whole<M>, pass: SenderPass<M>)
        requires own { (whole.old.box ≡ self.now) × (pass.box ≡ self.now) }
        ensures whole { whole.new ≡ record whole.old {
          budget = whole.old.budget + pass.budget;
          gathered = whole.old.gathered ++ pass.number ∷ [];
          sent = whole.old.sent ++ pass.sent;
        } }
        ensures known { whole.old.takes ≡ true → (s : ℕ)
            → 0 < length (letters_of M.from s whole.old.taken)
            → 0 < times s whole.old.numbers }
        ensures taken { whole.old.takes ≡ true
            → IsPrefix (letters_of M.from pass.number whole.old.taken) pass.sent }
        ensures each { whole.old.takes ≡ true → (s : ℕ)
            → 0 < times s (whole.old.gathered ++ pass.number ∷ [])
            → IsPrefix (letters_of M.from s whole.old.taken)
            (letters_of M.from s (whole.old.sent ++ pass.sent)) }
    {
        let SenderPass { pass } = pass;
        self.queue.absorb::<GatherSender>(&mut whole.pass, pass);
        self.queue.learn_as::<Pop>(&mut whole.pass);
    }

    /// Takes in the taker. What was taken of each sender that is here is a beginning of what it
    /// sent, and each letter taken is of a sender whose number was given out. A look tells this, as
    /// in [`PostBox::gather_sender`].
    pub fn gather_taker<R: Wait>(&self, _rt: &R, whole: &mut Whole<M>, pass: TakerPass<M>)
        requires own { (whole.old.box ≡ self.now) × (pass.box ≡ self.now) }
        ensures whole { whole.new ≡ record whole.old {
          takes = true;
          taken = pass.taken;
          empties = pass.empties;
        } }
        ensures known { (s : ℕ) → 0 < length (letters_of M.from s pass.taken)
            → 0 < times s whole.old.numbers }
        ensures taken { (s : ℕ) → 0 < times s whole.old.gathered
            → IsPrefix (letters_of M.from s pass.taken) (letters_of M.from s whole.old.sent) }
    {
        let TakerPass { pass } = pass;
        self.queue.absorb::<GatherTaker>(&mut whole.pass, pass);
        self.queue.learn_as::<Pop>(&mut whole.pass);
    }

    /// Takes the oldest letter, once all passes were gathered. Where there is none, all that was
    /// sent was taken.
    pub fn rest<R: Wait>(&self, rt: &R, whole: &mut Whole<M>) -> Option<M>
        requires own { whole.old.box ≡ self.now }
        requires senders { (s : ℕ) → times s whole.old.gathered ≡ times s whole.old.numbers }
        requires taker { whole.old.takes ≡ true }
        ensures some { IfSome result (λ x. whole.new ≡ record whole.old {
          taken = whole.old.taken ++ x ∷ [];
        }) }
        ensures most { IfSome result (λ x. length whole.new.taken ≤ self.now.capacity) }
        ensures none { IfNone result (whole.new ≡ record whole.old {
          empties = whole.old.empties + 1;
        }) }
        ensures all { IfNone result ((s : ℕ) → letters_of M.from s whole.old.taken
            ≡ letters_of M.from s whole.old.sent) }
    {
        match self.queue.pop_as::<Pop, R>(rt, &mut whole.pass) {
            Some(letter) => Some(letter),
            None => {
                self.queue.another::<CountEmpty>(&mut whole.pass);
                None
            }
        }
    }
}

// The whole of a queue that was just made. The proof of the call picks the capacity.
fn opened<M: Letter, G: Picked>(
    queue: &Queue<M>,
    mut fresh: Pass<M, View<M>>,
    capacity: u32,
) -> Pass<M, View<M>>
    requires own { IsPassOf queue.now fresh × (view fresh ≡ unopened) }
    requires amount { (capacity ≡ G.amount) × (1 ≤ capacity) }
    ensures { IsPassOf queue.now result × (view result ≡ first_whole G.amount) }
{
    let _capacity = capacity;
    queue.another::<Open<G>>(&mut fresh)
}

// A new sender. The proof of the call picks its number and its budget.
fn cut<M: Letter, G: Picked>(
    post: &PostBox<M>,
    whole: &mut Whole<M>,
    number: u32,
    budget: u32,
) -> SenderPass<M>
    requires own { whole.old.box ≡ post.now }
    requires picked { (number ≡ G.number) × (budget ≡ G.amount) }
    requires new { times G.number whole.old.numbers ≡ 0 }
    requires budget { G.amount ≤ whole.old.budget }
    ensures sender { result ≡ record {
      box = post.now;
      number = G.number;
      sent = [];
      budget = G.amount;
    } }
    ensures whole { whole.new ≡ record whole.old {
      budget = whole.old.budget - G.amount;
      numbers = whole.old.numbers ++ G.number ∷ [];
    } }
{
    let _picked = (number, budget);
    SenderPass {
        pass: post.queue.another::<CutSender<G>>(&mut whole.pass),
    }
}
