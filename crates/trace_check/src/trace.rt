//! What the two files of a run say.

use stale_model::{Entry, JournalEntry, List};

/// The calls of a run, in the order of their lines, and the journal of each replica.
#[derive(Drop, Debug)]
pub struct Trace {
    pub entries: List<Entry>,
    pub journals: List<List<JournalEntry>>,
}
