//! The operations that were fed, and their score.

ghost use Rattle.std.specs.Prelude.{◌≡◌, ◌+◌, ◌<◌, IfOk, length, replicate, slice_set};
ghost use Rattle.stale_model.specs.Orders.{StandsAt};
ghost use Rattle.stale_model.specs.Counted.{IsScore, waiting};
ghost use Rattle.live_score.specs.declared.places.Place.{Place};
ghost use Rattle.live_score.specs.Feeding.{CanBeFed, IsFedAs, fed_after, nothing_fed};
ghost use Rattle.live_score.specs.Places.{AreRising};
ghost use Rattle.live_score.specs.Placing.{IsRaised, IsScoreOfPlaces, score_after, vacated};

use crate::places::{Place, Places};
use crate::rows::{ABSENT, Row, UNSEEN};
use stale_model::{Memory, Op};
use std::alloc::Global;
use std::marker::Model;

/// What became of an operation.
#[derive(Clone, Copy, Debug, PartialEq, Eq)]
pub enum Fed {
    /// It counts from now on, and so do the reads that waited for it.
    Counted,
    /// It is a read whose value was not written yet: it counts once it is.
    Waiting,
    /// It writes a value that this record wrote before; it was left out.
    Duplicate { rec: u32 },
}

/// The operations of a key that were fed, and their score. Contracts see the operations, how many may be fed, and the
/// greatest number of a value.
#[derive(Drop)]
pub struct Live {
    fed: Vec<Op>,
    places: u32,
    values: u32,
    /// What is kept of each value, by its number.
    rows: Vec<Row>,
    /// How many of the places below are taken: those of values that were fed, in the order of their first operations.
    taken: usize,
    tree: Places,
    score: Option<u64>,
    waiting: u32,
}

impl Model for Live {
    ghost use Rattle.live_score.specs.Feeding.{LiveView};

    ghost Value = { LiveView };

    ghost use Rattle.live_score.specs.Invariant.{IsLive};

    ghost view = { λ l. record { fed = l.fed.items; places = l.places; values = l.values } };

    ghost invariant = { IsLive };
}

impl Live {
    /// Nothing is fed, and the score is 0. There is room for so many operations (`places`) with values of at most
    /// `values`. All memory is taken here.
    ///
    /// # Errors
    /// `Memory` may come at any time.
    pub fn prepare(alloc: Global, places: u32, values: u32) -> Result<Live, Memory>
        ensures { IfOk result (λ live. live ≡ nothing_fed places values) }
    {
        let Ok(fed) = Vec::with_capacity(alloc, places as usize) else {
            return Err(Memory);
        };
        let mut rows = unseen(alloc, values)?;
        rows[0] = ABSENT;
        let mut tree = Places::prepare(alloc, places as usize + 1)?;
        tree.put(0, ABSENT.place);
        Ok(Live {
            fed,
            places,
            values,
            rows,
            taken: 1,
            tree,
            score: Some(0),
            waiting: 0,
        })
    }

    /// Feeds the operation that finished last of all so far. Each feed takes the time of the logarithm of the number of
    /// places, and no memory. After `Duplicate` all is as before; else the operation stands last.
    pub fn feed(&mut self, op: &Op) -> Fed
        requires { CanBeFed self.old op.now }
        ensures answer { IsFedAs self.old.fed op.now result }
        ensures fed { self.new ≡ record self.old { fed = fed_after self.old.fed op.now result } }
    {
        let value = op.value as usize;
        let row = self.rows[value];
        let answer = row.answer(op);
        if let Fed::Duplicate { .. } = answer {
            return answer;
        }
        let at = row.at.unwrap_or(self.taken as u32);
        let next = row.with_operation(op, at);
        self.taken = row.taken_after(self.taken);
        self.waiting = row.waiting_after(op, self.waiting);
        self.rows[value] = next;
        self.score = raise(&mut self.tree, at as usize, next.shown(), self.score);
        match self.fed.push(*op) {
            Ok(()) => answer,
            Err(_) => unreachable!(),
        }
    }

    /// The score of what was fed: the least Δ, in ticks, of the operations that count, or none where they have none.
    pub fn score(&self) -> Option<u64>
        ensures { IsScore self.now.fed result }
    {
        self.score
    }

    /// How many reads wait for their write.
    pub fn waiting(&self) -> u32
        ensures { result ≡ waiting self.now.fed }
    {
        self.waiting
    }
}

// The rows of values that no operation has: of absent, and of as many others.
fn unseen(alloc: Global, values: u32) -> Result<Vec<Row>, Memory>
    ensures { IfOk result (λ rows. rows.items ≡ replicate (values + 1) UNSEEN) }
{
    vec![in alloc; UNSEEN; values as usize + 1].map_err(|_| Memory)
}

// Puts the new numbers of a value at its place, and answers the score after that: the greater of the one before and of
// the greatest score of this place with another; none where a read is early. The place is vacant while it is asked about.
fn raise(tree: &mut Places, at: usize, place: Place, score: Option<u64>) -> Option<u64>
    requires { at < length tree.old }
    ensures places { tree.new ≡ slice_set tree.old at place }
    ensures score { (old : Place) → StandsAt tree.old at old → IsRaised old place
        → AreRising (slice_set tree.old at (vacated place)) → IsScoreOfPlaces tree.old score
        → IsScoreOfPlaces tree.new result }
{
    tree.put(
        at,
        Place {
            w: 0,
            s: 0,
            ..place
        },
    );
    let asked = tree.greatest_score(&place);
    tree.put(at, place);
    score_after(score, &place, asked)
}

// The score after the numbers of a place changed, where this is its greatest score with another now.
fn score_after(score: Option<u64>, place: &Place, asked: u64) -> Option<u64>
    ensures { result ≡ score_after score place.now asked }
{
    match score {
        Some(before) if place.w <= place.f => Some(before.max(asked)),
        _ => None,
    }
}
