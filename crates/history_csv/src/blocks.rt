//! Entries put one behind the other, with their texts.
ghost use Rattle.std.specs.Prelude.{◌≡◌, ◌<◌, ◌++◌, [], ◌∷◌, Some, length, slice_get, OnOk, IfOk};
ghost use Rattle.history_csv.specs.Blocks.{FitsInRow, finish_shown};

use crate::entry::Entry;
use crate::numbering::NEVER;
use stale_model::{Kind, Memory};
use std::alloc::Global;
use std::marker::Model;

// An entry whose key and value stand in a text, the value behind the key. It takes 48 bytes: fields lie
// as they are written here, so wide ones stand first, and the finish is `NEVER` where there is none.
#[derive(Clone, Copy)]
struct Row {
    start: u64,
    finish: u64,
    slack: u64,
    at: usize,
    rec: u32,
    client: u32,
    key_len: u16,
    value_len: u16,
    kind: Kind,
}

impl Row {
    // The finish, where there is one.
    fn finish_if_any(&self) -> Option<u64>
        ensures { result ≡ finish_shown self.now.finish }
    {
        if self.finish == NEVER {
            None
        } else {
            Some(self.finish)
        }
    }
}

/// How many rows, and how many bytes of text, a block has room for from the first.
#[derive(Clone, Copy)]
pub(crate) struct Room {
    pub(crate) rows: usize,
    pub(crate) text: usize,
}

/// Some entries. Contracts see them as a list.
#[derive(Drop)]
pub(crate) struct Block {
    rows: Vec<Row>,
    text: Vec<u8>,
}

impl Model for Block {
    ghost use Rattle.std.specs.Prelude.{List, map, All};
    ghost use Rattle.history_csv.specs.Entries.{Entry};

    ghost Value = { List Entry };

    ghost use Rattle.history_csv.specs.Blocks.{StandsIn, entry_shown};

    ghost view = { λ b. map (entry_shown b.text.items) b.rows.items };

    ghost invariant = { λ b. All (StandsIn b.text.items) b.rows.items };
}

impl Block {
    /// No entries, with room for so many rows and so many bytes of text.
    pub(crate) fn new(alloc: Global, room: Room) -> Result<Block, Memory>
        ensures { IfOk result (λ block. block ≡ []) }
    {
        let Ok(rows) = Vec::with_capacity(alloc, room.rows) else {
            return Err(Memory);
        };
        let Ok(text) = Vec::with_capacity(alloc, room.text) else {
            return Err(Memory);
        };
        Ok(Block { rows, text })
    }

    /// How many entries there are.
    pub(crate) fn len(&self) -> usize
        ensures { result ≡ length self.now }
    {
        self.rows.len()
    }

    /// Puts a copy of an entry to the end.
    pub(crate) fn push(&mut self, entry: &Entry) -> Result<(), Memory>
        requires { FitsInRow entry.now }
        ensures { OnOk result (self.new ≡ self.old ++ entry.now ∷ []) }
    {
        let at = self.text.len();
        let Ok(()) = self.text.extend_from_slice(entry.key) else {
            return Err(Memory);
        };
        let Ok(()) = self.text.extend_from_slice(entry.value) else {
            return Err(Memory);
        };
        let row = Row {
            start: entry.start,
            finish: entry.finish.unwrap_or(NEVER),
            slack: entry.slack,
            at,
            rec: entry.rec,
            client: entry.client,
            key_len: entry.key.len() as u16,
            value_len: entry.value.len() as u16,
            kind: entry.kind,
        };
        let Ok(()) = self.rows.push(row) else {
            return Err(Memory);
        };
        Ok(())
    }

    /// The entry at a place.
    pub(crate) fn entry(&self, place: usize) -> Entry<'_>
        requires { place < length self.now }
        ensures { slice_get self.now place ≡ Some result }
    {
        let row = &self.rows[place];
        let text = self.text.as_slice();
        let middle = row.at + usize::from(row.key_len);
        let end = middle + usize::from(row.value_len);
        Entry {
            rec: row.rec,
            client: row.client,
            kind: row.kind,
            key: &text[row.at..middle],
            value: &text[middle..end],
            start: row.start,
            finish: row.finish_if_any(),
            slack: row.slack,
        }
    }
}
