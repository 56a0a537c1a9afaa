//! A history as its entries come, parted by a hash of their keys.
//!
//! Where there are many keys, each record would wait for memory at its key. So the entries are put
//! behind one another by parts, whose keys fit in cache, and then each part is taken apart.
ghost use Rattle.std.specs.Prelude.{◌≡◌, ◌<◌, ◌≤◌, ◌++◌, [], ◌∷◌, ℕ, List, length, map, All, OnOk, IfOk};
ghost use Rattle.std.specs.List.{flat_map};
ghost use Rattle.std.specs.List.Sorted.{IsPermutation, IsNonDecreasingBy};
ghost use Rattle.stale_model.specs.declared.KeyOps.{KeyOps};
ghost use Rattle.history_csv.specs.Entries.{Entry, most_records};
ghost use Rattle.history_csv.specs.Numbering.{history_of, keys_of};
ghost use Rattle.history_csv.specs.Blocks.{FitsInRow};
ghost use Rattle.history_csv.specs.Parting.{Rise, part_of, part_count, parts_of, with_first};
ghost use Rattle.history_csv.specs.Parted.{IsParted};

use crate::MOST_RECORDS;
use crate::blocks::{Block, Room};
use crate::entry::Entry;
use crate::part_keys::take_apart;
use stale_model::{History, KeyOps, List, Memory};
use std::alloc::Global;
use std::hash::{FoldHasher, Hasher};

// How many parts there are.
const PARTS: usize = 128;

// Room is made at once for at most so many bytes of texts, in all parts together.
const MOST_TEXT: usize = 33_554_432;

// How many hashes differ in their lower half alone.
const LOWER_HALF: u64 = 4_294_967_296;

// The part of a key.
fn part_of(name: &[u8]) -> usize
    ensures part { result ≡ part_of name.now }
    ensures within { result < part_count }
{
    let mut hasher = FoldHasher::default();
    hasher.write(name);
    (hasher.finish() / LOWER_HALF % 128) as usize
}

// A part's share of a whole, and an eighth more.
fn share(whole: usize) -> usize {
    whole / PARTS + whole / PARTS / 8
}

// Room for what a part of a file has on average and an eighth more, by a guess: a record has at least 28
// bytes, and at most half of a file is keys and values. Where a part has more, it grows.
fn room_of_part(file_bytes: usize) -> Room {
    Room {
        rows: share((file_bytes / 28).min(MOST_RECORDS as usize)),
        text: share((file_bytes / 2).min(MOST_TEXT)),
    }
}

// Parts with no entries, with room for those of a file of so many bytes.
fn empty_parts(alloc: Global, file_bytes: usize) -> Result<Vec<Block>, Memory>
    ensures { IfOk result (λ parts. parts.items ≡ parts_of []) }
{
    let Ok(mut parts) = Vec::with_capacity(alloc, PARTS) else {
        return Err(Memory);
    };
    let room = room_of_part(file_bytes);
    for _part in 0..PARTS {
        let Ok(()) = parts.push(Block::new(alloc, room)?) else {
            return Err(Memory);
        };
    }
    Ok(parts)
}

// Puts an entry into the part of its key.
fn deal(parts: &mut Vec<Block>, entry: &Entry) -> Result<(), Memory>
    requires fits { FitsInRow entry.now }
    requires parts { (entries : List Entry) × (parts.old.items ≡ parts_of entries) }
    ensures { OnOk result ((entries : List Entry) → parts.old.items ≡ parts_of entries
        → parts.new.items ≡ parts_of (entries ++ entry.now ∷ [])) }
{
    let place = part_of(entry.key);
    let part = &mut parts[place];
    part.push(entry)
}

// The keys of all parts, each beside its first record.
fn keys_of_parts(alloc: Global, parts: Vec<Block>) -> Result<Vec<(u32, KeyOps)>, Memory>
    requires { All (λ part. length part ≤ most_records) parts.items }
    ensures { IfOk result (λ found. found.items ≡ map with_first (flat_map keys_of parts.items)) }
{
    let mut found = Vec::new(alloc);
    for part in parts {
        take_apart(alloc, part, &mut found)?;
    }
    Ok(found)
}

// The keys without their records.
fn without_records(alloc: Global, found: Vec<(u32, KeyOps)>) -> Result<List<KeyOps>, Memory>
    ensures { IfOk result (λ keys. keys ≡ map (λ key. key.1) found.items) }
{
    let Ok(mut keys) = Vec::with_capacity(alloc, found.len()) else {
        return Err(Memory);
    };
    for (_, key) in found {
        let Ok(()) = keys.push(key) else {
            return Err(Memory);
        };
    }
    Ok(List::from_vec(keys))
}

// The keys in the order of their first records.
fn in_order(alloc: Global, found: Vec<(u32, KeyOps)>) -> Result<List<KeyOps>, Memory>
    ensures { IfOk result (λ keys. (sorted : List (ℕ × KeyOps)) × IsPermutation found.items sorted
        × IsNonDecreasingBy (λ key. key.0) sorted × (keys ≡ map (λ key. key.1) sorted)) }
{
    let mut found = found;
    found.sort_unstable_by_key(|key| key.0);
    without_records(alloc, found)
}

/// A history as its entries come, parted by a hash of their keys.
#[derive(Drop)]
pub(crate) struct PartedBuilder {
    parts: Vec<Block>,
    records: u32,
    skipped: u32,
}

impl PartedBuilder {
    /// A history with no entries yet, with room for those of a file of so many bytes.
    pub(crate) fn new(alloc: Global, file_bytes: usize) -> Result<PartedBuilder, Memory>
        ensures { IfOk result (λ parted. IsParted parted []) }
    {
        Ok(PartedBuilder {
            parts: empty_parts(alloc, file_bytes)?,
            records: 0,
            skipped: 0,
        })
    }

    /// Takes one more entry.
    pub(crate) fn add(&mut self, entry: &Entry) -> Result<(), Memory>
        requires fits { FitsInRow entry.now }
        requires parted { (entries : List Entry) × IsParted self.old entries
            × (length entries < most_records) }
        ensures { OnOk result ((entries : List Entry) → IsParted self.old entries
            → IsParted self.new (entries ++ entry.now ∷ [])) }
    {
        if entry.is_skipped() {
            self.skipped += 1;
        } else {
            deal(&mut self.parts, entry)?;
        }
        self.records += 1;
        Ok(())
    }

    /// The history, to keep.
    pub(crate) fn finish(self, alloc: Global) -> Result<History, Memory>
        requires { (entries : List Entry) × IsParted self entries
            × (length entries ≤ most_records) }
        ensures { IfOk result (λ history. (entries : List Entry) → IsParted self entries
            → Rise entries → history ≡ history_of entries) }
    {
        let PartedBuilder {
            parts,
            records,
            skipped,
        } = self;
        let found = keys_of_parts(alloc, parts)?;
        Ok(History {
            keys: in_order(alloc, found)?,
            records,
            skipped,
        })
    }
}
