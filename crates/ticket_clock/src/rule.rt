//! What a seat knows, and the steps of the clock's word under its rule.

use atomic_table::{Join, Play, Split, TableRule};
use std::collections::LinkedList;
use std::marker::{Brand, PhantomData};

/// What a seat knows: the tickets that it has drawn, how many it may still draw, and what its next
/// one is no less than. It exists in proofs alone; no value of it is made.
pub struct Known {
    pub drawn: LinkedList<u64>,
    pub left: u64,
    pub seen: u64,
}

/// The rule over the word and what the seats know, which each step keeps. Its key is the budget.
pub struct TicketRule;

impl TableRule<(), Known, u64> for TicketRule {
    ghost use Rattle.std.specs.Prelude.{[]};
    ghost use Rattle.ticket_clock.specs.Rule.{known, Keeps};

    ghost holds = { Keeps };

    ghost first = { λ budget. known [] budget 1 };
}

/// A number that the proof of a call picks.
pub trait Picked {
    ghost use Rattle.std.specs.Prelude.{ℕ};

    ghost number: { ℕ };
}

impl Picked for Brand {
    ghost number = { 0 };
}

/// A step that draws a ticket.
pub struct Draw;

impl Play<(), Known> for Draw {
    ghost use Rattle.ticket_clock.specs.Rule.{Draws};

    ghost then = { Draws };
}

/// A load that looks at a clock of the budget that is picked.
pub struct Look<G: Picked> {
    budget: PhantomData<G>,
}

impl<G: Picked> Play<(), Known> for Look<G> {
    ghost use Rattle.ticket_clock.specs.Rule.{Looks};

    ghost then = { Looks G.number };
}

/// A load that only tells that the seat's tickets differ.
pub struct Tell;

impl Play<(), Known> for Tell {
    ghost use Rattle.ticket_clock.specs.Rule.{Tells};

    ghost then = { Tells };
}

/// Takes as many tickets as are picked from a seat, for a new one.
pub struct Cut<G: Picked> {
    part: PhantomData<G>,
}

impl<G: Picked> Split<Known> for Cut<G> {
    ghost use Rattle.std.specs.Prelude.{[], ◌-◌};
    ghost use Rattle.ticket_clock.specs.Rule.{known};

    ghost left = { λ seat. known seat.drawn (seat.left - G.number) seat.seen };

    ghost right = { λ seat. known [] G.number seat.seen };
}

/// Puts two seats together.
pub struct Whole;

impl Join<Known> for Whole {
    ghost use Rattle.std.specs.Prelude.{[], ◌+◌, ◌++◌, max};
    ghost use Rattle.ticket_clock.specs.Rule.{known};

    ghost both = { λ seat other. known (seat.drawn ++ other.drawn) (seat.left + other.left)
        (max seat.seen other.seen) };

    ghost spent = { known [] 0 0 };
}
