//! The passes of a box, as callers have them. They take no bytes.

use crate::Letter;
use crate::view::View;
use crossbeam_queue::Pass;
use std::marker::Model;

/// The right to send letters under one number, for one thread. A contract sees its box, its
/// number, the list `sent` of its letters, and its budget: how many it may still send.
#[derive(Drop)]
pub struct SenderPass<M: Letter> {
    pub(crate) pass: Pass<M, View<M>>,
}

impl<M: Letter> Model for SenderPass<M> {
    ghost use Rattle.std.specs.Prelude.{◌≡◌, []};
    ghost use Rattle.crossbeam_queue.specs.Passes.{view as known};
    ghost use Rattle.post_box.specs.Boxes.{SenderView, letters_of};
    ghost use Rattle.post_box.specs.Views.{IsSender};

    ghost Value = { SenderView M };

    ghost view = { λ p. record {
      box = record { id = p.pass.table_id; capacity = (known p.pass).capacity };
      number = (known p.pass).number;
      sent = (known p.pass).sent;
      budget = (known p.pass).budget;
    } };

    ghost invariant = { λ p. (p.pass.me.1 ≡ []) × IsSender (known p.pass)
        × (letters_of M.from (known p.pass).number (known p.pass).sent ≡ (known p.pass).sent) };
}

/// The right to take letters, for one thread. A contract sees its box, the list `taken` of its
/// letters, and `empties`: how often it found none.
#[derive(Drop)]
pub struct TakerPass<M: Letter> {
    pub(crate) pass: Pass<M, View<M>>,
}

impl<M: Letter> Model for TakerPass<M> {
    ghost use Rattle.std.specs.Prelude.{◌≡◌, []};
    ghost use Rattle.crossbeam_queue.specs.Passes.{view as known};
    ghost use Rattle.post_box.specs.Boxes.{TakerView};
    ghost use Rattle.post_box.specs.Views.{IsTaker};

    ghost Value = { TakerView M };

    ghost view = { λ p. record {
      box = record { id = p.pass.table_id; capacity = (known p.pass).capacity };
      taken = (known p.pass).taken;
      empties = (known p.pass).empties;
    } };

    ghost invariant = { λ p. (p.pass.me.1 ≡ []) × IsTaker (known p.pass) };
}

/// All rights of a box that were not split off, or were gathered again. A contract sees its box,
/// the budget that it may still give out, the numbers that it gave out, those that were gathered
/// and what these sent, whether it ever gave the taker out, whether it may take itself, and the
/// taker's lists.
#[derive(Drop)]
pub struct Whole<M: Letter> {
    pub(crate) pass: Pass<M, View<M>>,
}

impl<M: Letter> Model for Whole<M> {
    ghost use Rattle.std.specs.Prelude.{◌≡◌, ℕ, true, false, []};
    ghost use Rattle.crossbeam_queue.specs.Passes.{view as known};
    ghost use Rattle.ticket_clock.specs.Seats.{times};
    ghost use Rattle.post_box.specs.Boxes.{WholeView, letters_of};
    ghost use Rattle.post_box.specs.Views.{IsWhole};

    ghost Value = { WholeView M };

    ghost view = { λ p. record {
      box = record { id = p.pass.table_id; capacity = (known p.pass).capacity };
      budget = (known p.pass).budget;
      numbers = (known p.pass).given;
      gathered = (known p.pass).held;
      sent = (known p.pass).sent;
      split = (known p.pass).split;
      takes = (known p.pass).takes;
      taken = (known p.pass).taken;
      empties = (known p.pass).empties;
    } };

    ghost invariant = { λ p. (p.pass.me.1 ≡ []) × IsWhole (known p.pass)
        × ((known p.pass).split ≡ false → (known p.pass).takes ≡ true)
        × ((s : ℕ) → times s (known p.pass).held ≡ 0
        → letters_of M.from s (known p.pass).sent ≡ []) };
}
