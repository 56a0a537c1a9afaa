//! What is kept of each value.

ghost use Rattle.std.specs.Prelude.{◌≡◌, ◌+◌, ◌<◌, ◌≤◌, ◌^◌};
ghost use Rattle.stale_model.specs.Operations.{IsWrite, latest_finish};
ghost use Rattle.live_score.specs.Rows.{row_after, shown, taken_after};
ghost use Rattle.live_score.specs.Answers.{answer_of, waiting_after};

use crate::live::Fed;
use crate::places::Place;
use stale_model::{Kind, Op};

/// What is kept of a value.
#[derive(Clone, Copy, Debug, PartialEq, Eq)]
pub struct Row {
    /// The number of its place, from its first operation on.
    pub at: Option<u32>,
    /// The record of its write, once that was fed.
    pub write: Option<u32>,
    /// What decides its scores: `f` from its first operation on, and `w` once its write was fed.
    pub place: Place,
    /// How many of the operations that were fed have it.
    pub count: u32,
}

/// The row of a value that no operation has.
pub const UNSEEN: Row = Row {
    at: None,
    write: None,
    place: Place { f: 0, w: 0, s: 0 },
    count: 0,
};

/// The row of absent before any operation: the initial write counts, and stands at place 0.
pub const ABSENT: Row = Row {
    at: Some(0),
    write: Some(0),
    place: Place { f: 0, w: 0, s: 0 },
    count: 0,
};

impl Row {
    /// The answer to one more operation of the value.
    pub fn answer(&self, op: &Op) -> Fed
        ensures { result ≡ answer_of op.now.kind self.now.write }
    {
        match (op.kind, self.write) {
            (Kind::Write, Some(rec)) => Fed::Duplicate { rec },
            (Kind::Read, None) => Fed::Waiting,
            (Kind::Write, None) | (Kind::Read, Some(_)) => Fed::Counted,
        }
    }

    /// How many reads wait after an operation of the value that is no duplicate, where so many did before.
    pub fn waiting_after(&self, op: &Op, waiting: u32) -> u32
        requires one_more { waiting + 1 < 2 ^ 32 }
        requires of_them { IsWrite op.now → self.now.count ≤ waiting }
        ensures { result ≡ waiting_after op.now.kind self.now.write waiting self.now.count }
    {
        match (op.kind, self.write) {
            (Kind::Read, None) => waiting + 1,
            (Kind::Read, Some(_)) => waiting,
            (Kind::Write, _) => waiting - self.count,
        }
    }

    /// How many places are taken after an operation of the value, where so many were before.
    pub fn taken_after(&self, taken: usize) -> usize
        requires { taken + 1 < 2 ^ 64 }
        ensures { result ≡ taken_after self.now.at taken }
    {
        match self.at {
            Some(_) => taken,
            None => taken + 1,
        }
    }

    /// The row with one more operation of the value, whose place has this number.
    pub fn with_operation(self, op: &Op, at: u32) -> Row
        requires finish { latest_finish op.now < 2 ^ 64 }
        requires count { self.count + 1 < 2 ^ 32 }
        ensures { result ≡ row_after self op.now at }
    {
        let f = match self.at {
            Some(_) => self.place.f,
            None => op.latest_finish(),
        };
        let place = Place { f, ..self.place };
        let row = Row {
            at: Some(at),
            place,
            count: self.count + 1,
            ..self
        };
        let start = op.earliest_start();
        match op.kind {
            Kind::Write => Row {
                write: Some(op.rec),
                place: Place { w: start, ..place },
                ..row
            },
            Kind::Read => Row {
                place: Place {
                    s: place.s.max(start),
                    ..place
                },
                ..row
            },
        }
    }

    /// What stands at the place of the value: its numbers once they count, else its `f` alone.
    pub fn shown(&self) -> Place
        ensures { result ≡ shown self.now.write self.now.place }
    {
        match self.write {
            Some(_) => self.place,
            None => Place {
                w: 0,
                s: 0,
                ..self.place
            },
        }
    }
}
