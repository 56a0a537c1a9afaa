//! Gates that tell what passed them.

use audit_ports::Gate;
use std::sync::atomic::{AtomicU32, Ordering};
use std::thread;

/// A gate that counts its calls, and those that come out of turn: each piece is entered, in the order of their numbers
/// from 0, after the one before was left.
#[derive(Drop)]
pub struct CountingGate {
    entered: AtomicU32,
    left: AtomicU32,
    astray: AtomicU32,
}

impl CountingGate {
    /// A gate that nothing passed yet.
    pub fn new() -> CountingGate {
        CountingGate {
            entered: AtomicU32::new(0),
            left: AtomicU32::new(0),
            astray: AtomicU32::new(0),
        }
    }

    /// How many pieces were entered.
    pub fn entered(&self) -> u32 {
        self.entered.load(Ordering::SeqCst)
    }

    /// How many were left.
    pub fn left(&self) -> u32 {
        self.left.load(Ordering::SeqCst)
    }

    /// How many calls came out of turn.
    pub fn astray(&self) -> u32 {
        self.astray.load(Ordering::SeqCst)
    }
}

impl Gate for CountingGate {
    fn enter(&self, piece: u32) {
        let entered = self.entered.fetch_add(1, Ordering::SeqCst);
        if entered != piece || self.left.load(Ordering::SeqCst) != piece {
            self.astray.fetch_add(1, Ordering::SeqCst);
        }
    }

    fn leave(&self, piece: u32) {
        let left = self.left.fetch_add(1, Ordering::SeqCst);
        if left != piece || self.entered.load(Ordering::SeqCst) != piece.wrapping_add(1) {
            self.astray.fetch_add(1, Ordering::SeqCst);
        }
    }
}

// How often the first piece asks whether the second has entered.
const MOST_TURNS: u32 = 10_000_000;

/// A gate that holds whoever enters with the first of two pieces until one has entered with the second, for 10,000,000
/// turns at most.
#[derive(Drop)]
pub struct Meeting {
    first: u32,
    second: u32,
    second_entered: AtomicU32,
    met: AtomicU32,
}

impl Meeting {
    /// A gate of these two pieces, that nothing passed yet.
    pub fn of(first: u32, second: u32) -> Meeting {
        Meeting {
            first,
            second,
            second_entered: AtomicU32::new(0),
            met: AtomicU32::new(0),
        }
    }

    /// Whether the second was entered while the first was held.
    pub fn met(&self) -> bool {
        self.met.load(Ordering::SeqCst) == 1
    }
}

impl Gate for Meeting {
    fn enter(&self, piece: u32) {
        if piece == self.second {
            self.second_entered.store(1, Ordering::SeqCst);
        }
        if piece == self.first {
            for _turn in 0..MOST_TURNS {
                if self.second_entered.load(Ordering::SeqCst) == 1 {
                    self.met.store(1, Ordering::SeqCst);
                    return;
                }
                thread::yield_now();
            }
        }
    }

    fn leave(&self, _piece: u32) {}
}
