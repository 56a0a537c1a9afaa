//! The operations of a key by their records.
ghost use Rattle.std.specs.Prelude.{IfSome, IsTrue, ◌↔◌, ◌^◌, ◌<◌};
ghost use Rattle.stale_model.specs.Operations.{operations, latest_finish};
ghost use Rattle.stale_model.specs.Valid.{IsValidKey};
ghost use Rattle.stale_model.specs.Precedence.{Precedes};
ghost use Rattle.cert_checker.specs.Records.{IsPlaced, IsFound};

use crate::lists::refill;
use stale_model::{INITIAL_WRITE, KeyOps, Kind, Memory, Op};
use std::alloc::Global;

// An operation, and its place among all operations of its key.
#[derive(Clone, Copy)]
pub(crate) struct Placed {
    pub(crate) place: usize,
    pub(crate) op: Op,
}

/// The operation with this record, if the key has one. Takes log n in the operations.
pub(crate) fn search(key: &KeyOps, rec: u32) -> Option<Placed>
    requires { IsValidKey key.now }
    ensures { IsFound (operations key.now) rec result }
{
    if rec == 0 {
        return Some(Placed {
            place: 0,
            op: INITIAL_WRITE,
        });
    }
    let ops = key.ops.as_slice();
    match ops.binary_search_by_key(&rec, |op| op.rec) {
        Ok(place) => Some(Placed {
            place: place + 1,
            op: ops[place],
        }),
        Err(_) => None,
    }
}

// The greatest number of slots that a table has for each operation.
const SLOTS: usize = 4;

// By which power of two records are divided that lie this far apart at most, so that a table of so many operations has
// SLOTS slots for each at most.
fn shift_for(width: usize, ops: usize) -> u32 {
    let spread = width / SLOTS / ops.max(1);
    if spread == 0 { 0 } else { spread.ilog2() + 1 }
}

// Where the operations of a key stand, by how far their records lie above the first one, divided by a power of two: what
// it says is looked up before it is believed.
#[derive(Drop)]
pub(crate) struct Hints {
    first: u32,
    shift: u32,
    places: Vec<u32>,
}

impl Hints {
    /// A table of no key.
    pub(crate) fn new(alloc: Global) -> Hints {
        Hints {
            first: 0,
            shift: 0,
            places: Vec::new(alloc),
        }
    }

    /// The table of a key.
    pub(crate) fn of(alloc: Global, key: &KeyOps) -> Result<Hints, Memory>
        requires { IsValidKey key.now }
    {
        let mut hints = Hints::new(alloc);
        hints.lead_to(key)?;
        Ok(hints)
    }

    // The slot of an operation with this record.
    fn slot(&self, rec: u32) -> usize {
        (rec.saturating_sub(self.first) as usize).wrapping_shr(self.shift)
    }

    /// Makes this the table of a key.
    pub(crate) fn lead_to(&mut self, key: &KeyOps) -> Result<(), Memory>
        requires { IsValidKey key.now }
    {
        let ops = key.ops.as_slice();
        let (first, last) = match (ops.first(), ops.last()) {
            (Some(first), Some(last)) => (first.rec, last.rec),
            _ => (0, 0),
        };
        self.first = first;
        self.shift = shift_for(last.saturating_sub(first) as usize, ops.len());
        let slots = self.slot(last).saturating_add(1);
        refill(&mut self.places, slots, 0)?;
        for (place, op) in ops.iter().enumerate() {
            let slot = self.slot(op.rec);
            if slot < self.places.len() {
                self.places[slot] = place as u32;
            }
        }
        Ok(())
    }

    // The operation with this record, where the table leads to it.
    fn guess(&self, key: &KeyOps, rec: u32) -> Option<Placed>
        ensures { IfSome result (IsPlaced (operations key.now) rec) }
    {
        let slot = self.slot(rec);
        let ops = key.ops.as_slice();
        if slot >= self.places.len() {
            return None;
        }
        let place = self.places[slot] as usize;
        if place < ops.len() && ops[place].rec == rec {
            Some(Placed {
                place: place + 1,
                op: ops[place],
            })
        } else {
            None
        }
    }

    /// The operation with this record, if the key has one.
    pub(crate) fn find(&self, key: &KeyOps, rec: u32) -> Option<Placed>
        requires { IsValidKey key.now }
        ensures { IsFound (operations key.now) rec result }
    {
        match self.guess(key, rec) {
            Some(placed) => Some(placed),
            None => search(key, rec),
        }
    }
}

/// Whether a has certainly finished before b starts, where reads are taken to start d earlier.
pub(crate) fn precedes(d: u64, a: &Op, b: &Op) -> bool
    requires { latest_finish a.now < 2 ^ 64 }
    ensures { IsTrue result ↔ Precedes d a.now b.now }
{
    let moved = match b.kind {
        Kind::Read => d,
        Kind::Write => 0,
    };
    b.earliest_start().saturating_sub(a.latest_finish()) > moved
}
