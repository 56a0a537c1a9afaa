//! The rule of a box, and its steps.

use crate::Letter;
use crate::view::View;
use crossbeam_queue::protocol::{Join, Lesson, Outcome, Protocol, Split};
use std::marker::{Brand, PhantomData};

/// The rule over the letters in the box and what the passes know, which each step keeps.
pub struct BoxRule<M> {
    letters: PhantomData<M>,
}

impl<M: Letter> Protocol<M, View<M>> for BoxRule<M> {
    ghost use Rattle.post_box.specs.Views.{unopened};
    ghost use Rattle.post_box.specs.Rule.{Keeps};

    ghost holds = { Keeps M.from };

    ghost first = { unopened };
}

/// Two numbers that the proof of a call picks.
pub trait Picked {
    ghost use Rattle.std.specs.Prelude.{ℕ};

    ghost number: { ℕ };

    ghost amount: { ℕ };
}

impl Picked for Brand {
    ghost number = { 0 };

    ghost amount = { 0 };
}

/// The first pass of a queue becomes the whole of a box, which may send the amount that is picked.
pub struct Open<G: Picked> {
    amount: PhantomData<G>,
}

impl<M, G: Picked> Split<View<M>> for Open<G> {
    ghost use Rattle.post_box.specs.Views.{spent, first_whole};

    ghost left = { λ v. spent };

    ghost right = { λ v. first_whole G.amount };
}

/// The whole gives out the number that is picked, with the budget that is picked.
pub struct CutSender<G: Picked> {
    part: PhantomData<G>,
}

impl<M, G: Picked> Split<View<M>> for CutSender<G> {
    ghost use Rattle.post_box.specs.Views.{without_sender, new_sender};

    ghost left = { without_sender G.number G.amount };

    ghost right = { new_sender G.number G.amount };
}

/// The whole gives out the taker.
pub struct CutTaker;

impl<M> Split<View<M>> for CutTaker {
    ghost use Rattle.post_box.specs.Views.{without_taker, new_taker};

    ghost left = { without_taker };

    ghost right = { new_taker };
}

/// A pass counts that its pop found none. A pop that finds none leaves what the pass knows as it
/// is, so this split follows it, of which nothing is used but its left part.
pub struct CountEmpty;

impl<M> Split<View<M>> for CountEmpty {
    ghost use Rattle.post_box.specs.Views.{one_more_empty, spent};

    ghost left = { one_more_empty };

    ghost right = { λ v. spent };
}

/// The whole takes in a sender.
pub struct GatherSender;

impl<M> Join<View<M>> for GatherSender {
    ghost use Rattle.post_box.specs.Views.{with_sender, spent};

    ghost both = { with_sender };

    ghost spent = { spent };
}

/// The whole takes in the taker.
pub struct GatherTaker;

impl<M> Join<View<M>> for GatherTaker {
    ghost use Rattle.post_box.specs.Views.{with_taker, spent};

    ghost both = { with_taker };

    ghost spent = { spent };
}

/// A letter is sent. A push that finds no room would learn that there is room.
pub struct Push;

impl<M> Outcome<M, View<M>> for Push {
    ghost use Rattle.post_box.specs.Views.{Sends};

    ghost then = { Sends };
}

impl<M> Lesson<M, View<M>> for Push {
    ghost use Rattle.post_box.specs.Views.{HasRoom};

    ghost fact = { HasRoom };
}

/// A letter is taken. A pop that finds none, and a look, learn what the rule tells the pass.
pub struct Pop;

impl<M> Outcome<M, View<M>> for Pop {
    ghost use Rattle.post_box.specs.Views.{Takes};

    ghost then = { Takes };
}

impl<M: Letter> Lesson<M, View<M>> for Pop {
    ghost use Rattle.post_box.specs.Rule.{Tells};

    ghost fact = { Tells M.from };
}
