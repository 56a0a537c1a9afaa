//! A history as its entries come, in the form that suits how many keys there are.
ghost use Rattle.std.specs.Prelude.{◌≡◌, ◌<◌, ◌≤◌, ◌++◌, [], ◌∷◌, List, length, OnOk, IfOk};
ghost use Rattle.history_csv.specs.Entries.{Entry, most_records};
ghost use Rattle.history_csv.specs.Numbering.{history_of};
ghost use Rattle.history_csv.specs.Blocks.{FitsInRow};
ghost use Rattle.history_csv.specs.Parting.{Rise};
ghost use Rattle.history_csv.specs.Made.{Makes};

use crate::entry::Entry;
use crate::header::columns_of;
use crate::numbering::{HistoryBuilder, copy_of};
use crate::parts::PartedBuilder;
use crate::records::{read_next, reader_of};
use csv::ByteRecord;
use indexmap::IndexSet;
use stale_model::{History, Memory};
use std::alloc::Global;

// So many records are looked at to tell whether there are many keys.
const FIRST_RECORDS: u32 = 4096;

// The greatest number of keys among them that is not many.
const FEW_KEYS: usize = 64;

/// Whether the first records have many keys. Where that can't be told they have not.
pub(crate) fn has_many_keys(alloc: Global, bytes: &[u8]) -> bool {
    let mut reader = reader_of(alloc, bytes);
    let mut row = ByteRecord::new(alloc);
    let Ok(true) = read_next(&mut reader, &mut row) else {
        return false;
    };
    let Ok(columns) = columns_of(&row) else {
        return false;
    };
    let mut names: IndexSet<Vec<u8>> = IndexSet::new(alloc);
    for _record in 0..FIRST_RECORDS {
        let Ok(true) = read_next(&mut reader, &mut row) else {
            return false;
        };
        let Some(name) = row.get(columns.key) else {
            return false;
        };
        let Ok(copy) = copy_of(alloc, name) else {
            return false;
        };
        let Ok(_) = names.insert(copy) else {
            return false;
        };
        if names.len() > FEW_KEYS {
            return true;
        }
    }
    false
}

/// A history as its entries come.
#[derive(Drop)]
pub(crate) enum Builder {
    /// Each entry is taken to its key.
    ByKeys(HistoryBuilder),
    /// Entries are parted first.
    ByParts(PartedBuilder),
}

impl Builder {
    /// A history with no entries yet, with room for those of a file of so many bytes if it has many keys.
    pub(crate) fn new(
        alloc: Global,
        has_many_keys: bool,
        file_bytes: usize,
    ) -> Result<Builder, Memory>
        ensures { IfOk result (λ builder. Makes builder []) }
    {
        if has_many_keys {
            Ok(Builder::ByParts(PartedBuilder::new(alloc, file_bytes)?))
        } else {
            Ok(Builder::ByKeys(HistoryBuilder::new(alloc)))
        }
    }

    /// Takes one more entry.
    pub(crate) fn add(&mut self, alloc: Global, entry: &Entry) -> Result<(), Memory>
        requires fits { FitsInRow entry.now }
        requires made { (entries : List Entry) × Makes self.old entries
            × (length entries < most_records) }
        ensures { OnOk result ((entries : List Entry) → Makes self.old entries
            → Makes self.new (entries ++ entry.now ∷ [])) }
    {
        match self {
            Builder::ByKeys(builder) => builder.add(alloc, entry),
            Builder::ByParts(builder) => builder.add(entry),
        }
    }

    /// The history, to keep.
    pub(crate) fn finish(self, alloc: Global) -> Result<History, Memory>
        requires { (entries : List Entry) × Makes self entries × (length entries ≤ most_records) }
        ensures { IfOk result (λ history. (entries : List Entry) → Makes self entries
            → Rise entries → history ≡ history_of entries) }
    {
        match self {
            Builder::ByKeys(builder) => builder.finish(alloc),
            Builder::ByParts(builder) => builder.finish(alloc),
        }
    }
}
