//! What a pass of a box knows.

use std::collections::LinkedList;

/// What a pass knows. It exists in proofs alone; no value of it is made. A pass that is not live
/// has nothing.
pub struct View<M> {
    // The only pass of a queue that was just made; a pass of an open box.
    pub unopened: bool,
    pub live: bool,
    // How many letters the box has room for, and how many of them this pass may still send.
    pub capacity: u64,
    pub budget: u64,
    // Of the whole: that it is the whole, the numbers that it gave out, and whether it ever gave
    // the taker out.
    pub is_whole: bool,
    pub given: LinkedList<u32>,
    pub split: bool,
    // The number of a sender; the numbers whose senders are here, and what they sent.
    pub number: u32,
    pub held: LinkedList<u32>,
    pub sent: LinkedList<M>,
    // Of a pass that takes: what it took, and how often it found none.
    pub takes: bool,
    pub taken: LinkedList<M>,
    pub empties: u64,
}
