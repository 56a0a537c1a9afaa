//! Tickets from one atomic word. Each is given once, none is left out, and each that a seat draws
//! is after all that the seat had seen.
#![tactic(auto)]

ghost use Rattle.std.specs.Prelude.{◌≡◌, ◌+◌, ◌-◌, ◌^◌, ◌<◌, ◌≤◌, max, [], ◌∷◌, ◌++◌, length, IfOk};
ghost use Rattle.ticket_clock.specs.Seats.{IsFresh, HasNoneTwice, IsOneToLength};

mod rule;
mod seat;
#[cfg(test)]
mod tests;

use atomic_table::Table;
use rule::{Cut, Draw, Known, Look, Picked, Tell, TicketRule, Whole};
pub use seat::Seat;
use stale_model::Memory;
use std::alloc::Global;
use std::marker::{Brand, Model};
use std::sync::Wait;
use std::thread;

/// Gives the tickets 1, 2, 3 and so on, as many as its budget says. A contract sees its identity
/// and its budget.
#[derive(Drop)]
pub struct Clock {
    table: Table<(), Known, u64, TicketRule, Global>,
}

impl Model for Clock {
    ghost use Rattle.std.specs.Prelude.{◌≡◌, ◌^◌, ◌<◌};
    ghost use Rattle.ticket_clock.specs.Seats.{ClockView};

    ghost Value = { ClockView };

    ghost view = { λ c. record { id = c.table.shared.table_id; budget = c.table.shared.key } };

    ghost invariant = { λ c. (c.table.shared.table_id.words ≡ 1) × (c.table.shared.key < 2 ^ 62) };
}

impl Clock {
    /// A clock with this budget, and the seat that may draw all of its tickets.
    pub fn new(alloc: Global, budget: u64) -> Result<(Clock, Seat), Memory>
        requires some { 1 ≤ budget }
        requires most { budget < 2 ^ 62 }
        ensures { IfOk result (λ made. (made.0.budget ≡ budget) × IsFresh made.0 budget 1 made.1) }
    {
        match Table::of_words(alloc, &[1], &budget) {
            Ok((table, at)) => Ok((Clock { table }, Seat { at })),
            Err(_) => Err(Memory),
        }
    }

    /// Draws a ticket, in one step. It is none that the seat knew to be given.
    pub fn draw(&self, seat: &mut Seat) -> u64
        requires own { seat.old.clock ≡ self.now.id }
        requires left { 1 ≤ seat.old.left }
        ensures ticket { (1 ≤ result) × (seat.old.seen ≤ result) }
        ensures seat { seat.new ≡ record seat.old {
          drawn = seat.old.drawn ++ result ∷ [];
          left = seat.old.left - 1;
          seen = result + 1;
        } }
    {
        self.table.shared.fetch_add::<Draw>(&mut seat.at, 0, 1)
    }

    /// The ticket that is next at one moment of the call: the seat's later ones are no less. It
    /// tells that the seat's tickets differ. Where these, and what the seat may still draw, are the
    /// whole budget, no other seat may draw, and they are all tickets so far.
    pub fn look(&self, seat: &mut Seat) -> u64
        requires own { seat.old.clock ≡ self.now.id }
        ensures seen { seat.old.seen ≤ result }
        ensures seat { seat.new ≡ record seat.old { seen = result } }
        ensures once { HasNoneTwice seat.old.drawn }
        ensures all { length seat.old.drawn + seat.old.left ≡ self.now.budget
            → IsOneToLength seat.old.drawn × (result ≡ length seat.old.drawn + 1) }
    {
        look_at::<Brand>(self, seat)
    }

    /// A new seat, which may draw so many of the seat's tickets in its place.
    pub fn split(&self, seat: &mut Seat, left: u64) -> Seat
        requires own { seat.old.clock ≡ self.now.id }
        requires left { left ≤ seat.old.left }
        ensures new { IsFresh self.now left seat.old.seen result }
        ensures seat { seat.new ≡ record seat.old { left = seat.old.left - left } }
    {
        cut::<Brand>(self, seat, left)
    }

    /// The seat takes in another of this clock. The step that joins them tells nothing, so a load
    /// follows, which tells that their tickets differ.
    pub fn join(&self, seat: &mut Seat, other: Seat)
        requires own { seat.old.clock ≡ self.now.id }
        requires other { other.clock ≡ self.now.id }
        ensures seat { seat.new ≡ record seat.old {
          drawn = seat.old.drawn ++ other.drawn;
          left = seat.old.left + other.left;
          seen = max seat.old.seen other.seen;
        } }
        ensures once { HasNoneTwice seat.new.drawn }
    {
        let Seat { at } = other;
        self.table.shared.join_seat::<Whole>(&mut seat.at, at);
        self.table.shared.load::<Tell>(&mut seat.at, 0);
    }

    /// Looks until the clock has passed this ticket.
    pub fn await_past<R: Wait>(&self, rt: &R, seat: &mut Seat, t: u64)
        requires own { seat.old.clock ≡ self.now.id }
        ensures past { t < seat.new.seen }
        ensures seen { seat.old.seen ≤ seat.new.seen }
        ensures seat { seat.new ≡ record seat.old { seen = seat.new.seen } }
    {
        for _ in rt.forever() {
            if self.look(seat) > t {
                return;
            }
            thread::yield_now();
        }
        unreachable!()
    }
}

// A look at a clock of the budget that the proof of the call picks.
fn look_at<G: Picked>(clock: &Clock, seat: &mut Seat) -> u64
    requires own { seat.old.clock ≡ clock.now.id }
    requires budget { clock.now.budget ≡ G.number }
    ensures seen { seat.old.seen ≤ result }
    ensures seat { seat.new ≡ record seat.old { seen = result } }
    ensures once { HasNoneTwice seat.old.drawn }
    ensures all { length seat.old.drawn + seat.old.left ≡ G.number
        → IsOneToLength seat.old.drawn × (result ≡ length seat.old.drawn + 1) }
{
    clock.table.shared.load::<Look<G>>(&mut seat.at, 0)
}

// A new seat, which may draw so many. The proof of the call picks the same number.
fn cut<G: Picked>(clock: &Clock, seat: &mut Seat, left: u64) -> Seat
    requires own { seat.old.clock ≡ clock.now.id }
    requires left { (left ≡ G.number) × (G.number ≤ seat.old.left) }
    ensures new { IsFresh clock.now G.number seat.old.seen result }
    ensures seat { seat.new ≡ record seat.old { left = seat.old.left - G.number } }
{
    Seat {
        at: clock.table.shared.split_seat::<Cut<G>>(&mut seat.at),
    }
}
