//! A seat, as callers have it.

use crate::rule::Known;
use std::marker::Model;

/// The right to draw tickets of one clock, for one thread. It takes no bytes. A contract sees its
/// clock, the list `drawn` of its tickets, how many are `left` to it, and `seen`, which its next
/// ticket is no less than. The list is known in proofs alone.
#[derive(Drop)]
pub struct Seat {
    pub(crate) at: atomic_table::Seat<(), Known>,
}

impl Model for Seat {
    ghost use Rattle.std.specs.Prelude.{◌≡◌, []};
    ghost use Rattle.ticket_clock.specs.Seats.{SeatView};

    ghost Value = { SeatView };

    ghost view = { λ s. record {
      clock = s.at.table_id;
      drawn = s.at.me.0.drawn;
      left = s.at.me.0.left;
      seen = s.at.me.0.seen;
    } };

    ghost invariant = { λ s. s.at.me.1 ≡ [] };
}
