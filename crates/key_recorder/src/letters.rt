//! What a client sends to a recorder.

use post_box::Letter;
use stale_model::Entry;

/// What a client sends to the log of a shard.
#[derive(Clone, Copy, Debug, PartialEq, Eq)]
pub enum RecordLetter {
    /// A call that it made on a key of the shard.
    Entry(Entry),
    /// That it sends no more.
    End { client: u32 },
}

impl Letter for RecordLetter {
    ghost use Rattle.key_recorder.specs.Letters.{sender_of};

    ghost from = { sender_of };

    // A letter is sent by its client.
    fn sender(&self) -> u32 {
        match self {
            RecordLetter::Entry(entry) => entry.client,
            RecordLetter::End { client } => *client,
        }
    }
}
