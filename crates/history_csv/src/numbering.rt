//! Keys and values, numbered by first appearance.
ghost use Rattle.std.specs.Prelude.{◌≡◌, ◌<◌, ◌++◌, [], ◌∷◌, Some, List, length, OnOk, IfOk, IfSome};
ghost use Rattle.std.specs.List.{position, position_or_len};
ghost use Rattle.std.specs.Str.{bytes_eq};
ghost use Rattle.history_csv.specs.Entries.{Entry, most_records};
ghost use Rattle.history_csv.specs.Numbering.{contents_of, named, value_number, keys_of, history_of};
ghost use Rattle.history_csv.specs.Building.{op_numbered, texts_of, keys_shown, with_text, with_key, with_value};

use crate::entry::Entry;
use indexmap::{IndexMap, IndexSet};
use stale_model::{Bytes, History, KeyOps, List, Memory, Op};
use std::alloc::Global;
use std::marker::Model;

/// The tick at which a write that never finished counts as finished. It is no tick of a history file.
pub(crate) const NEVER: u64 = 9_223_372_036_854_775_808;

/// A copy of a text.
pub(crate) fn copy_of(alloc: Global, text: &[u8]) -> Result<Vec<u8>, Memory>
    ensures { IfOk result (λ copy. copy.items ≡ text.now) }
{
    let Ok(copy) = Vec::from_slice(alloc, text) else {
        return Err(Memory);
    };
    Ok(copy)
}

// The place of a text, if it is the last of these.
fn last_place(texts: &IndexSet<Vec<u8>>, text: &[u8]) -> Option<usize>
    ensures { IfSome result (λ place.
        Some place ≡ position (bytes_eq text.now) (texts_of texts.now.keys)) }
{
    let last = texts.last()?;
    if text == last.as_slice() {
        Some(texts.len() - 1)
    } else {
        None
    }
}

// The place of a text among texts, which is put at their end if it is new.
fn place_of(texts: &mut IndexSet<Vec<u8>>, alloc: Global, text: &[u8]) -> Result<usize, Memory>
    ensures place { IfOk result (λ place.
        place ≡ position_or_len (bytes_eq text.now) (texts_of texts.old.keys)) }
    ensures texts { OnOk result
        (texts_of texts.new.keys ≡ with_text (texts_of texts.old.keys) text.now) }
{
    // Most reads return the value that was written last, which is found with no hash.
    if let Some(place) = last_place(texts, text) {
        return Ok(place);
    }
    let copy = copy_of(alloc, text)?;
    let Ok((place, _)) = texts.insert_full(copy) else {
        return Err(Memory);
    };
    Ok(place)
}

/// The operation of an entry whose value has this number.
pub(crate) fn op_of(entry: &Entry, value: u32) -> Op
    ensures { result ≡ op_numbered value entry.now }
{
    Op {
        rec: entry.rec,
        client: entry.client,
        kind: entry.kind,
        value,
        start: entry.start,
        finish: entry.finish.unwrap_or(NEVER),
        slack: entry.slack,
    }
}

/// A key as its entries come: its values so far, and its operations.
#[derive(Drop)]
pub(crate) struct KeyBuilder {
    values: IndexSet<Vec<u8>>,
    ops: Vec<Op>,
}

impl Model for KeyBuilder {
    ghost use Rattle.history_csv.specs.Numbering.{Contents};

    ghost Value = { Contents };

    ghost use Rattle.history_csv.specs.Building.{texts_of};

    ghost view = { λ b. record { values = texts_of b.values.keys; ops = b.ops.items } };
}

impl KeyBuilder {
    // A key with no entries yet.
    fn new(alloc: Global) -> KeyBuilder
        ensures { result ≡ contents_of [] }
    {
        KeyBuilder {
            values: IndexSet::new(alloc),
            ops: Vec::new(alloc),
        }
    }

    // The number of a value, which is a new one where the value is.
    fn number(&mut self, alloc: Global, value: &[u8]) -> Result<u32, Memory>
        requires { length self.old.values < most_records }
        ensures number { IfOk result (λ number. number ≡ value_number self.old.values value.now) }
        ensures values { OnOk result (self.new.values ≡ with_value self.old.values value.now) }
        ensures ops { OnOk result (self.new.ops ≡ self.old.ops) }
    {
        if value.is_empty() {
            return Ok(0);
        }
        let place = place_of(&mut self.values, alloc, value)?;
        Ok(place as u32 + 1)
    }

    // Takes one more entry of the key.
    fn add(&mut self, alloc: Global, entry: &Entry) -> Result<(), Memory>
        requires { (entries : List Entry) × (self.old ≡ contents_of entries)
            × (length entries < most_records) }
        ensures { OnOk result ((entries : List Entry) → self.old ≡ contents_of entries
            → self.new ≡ contents_of (entries ++ entry.now ∷ [])) }
    {
        let value = self.number(alloc, entry.value)?;
        let Ok(()) = self.ops.push(op_of(entry, value)) else {
            return Err(Memory);
        };
        Ok(())
    }

    // The key of this name, to keep.
    fn finish(self, alloc: Global, name: Vec<u8>) -> Result<KeyOps, Memory>
        ensures { IfOk result (λ key. key ≡ named name.items self) }
    {
        let KeyBuilder { values, ops } = self;
        Ok(KeyOps {
            name: Bytes::from_vec(name),
            values: texts(alloc, values)?,
            ops: List::from_vec(ops),
        })
    }
}

// The texts of a set, moved and not copied.
fn texts(alloc: Global, set: IndexSet<Vec<u8>>) -> Result<List<Bytes>, Memory>
    ensures { IfOk result (λ texts. texts ≡ texts_of set.keys) }
{
    let Ok(mut texts) = Vec::with_capacity(alloc, set.len()) else {
        return Err(Memory);
    };
    for text in set {
        let Ok(()) = texts.push(Bytes::from_vec(text)) else {
            return Err(Memory);
        };
    }
    Ok(List::from_vec(texts))
}

// The place of a key of this name, which is a new one, with no entries, if there was none.
fn place_of_key(
    keys: &mut IndexMap<Vec<u8>, KeyBuilder>,
    alloc: Global,
    name: &[u8],
) -> Result<usize, Memory>
    ensures place { IfOk result (λ place.
        place
        ≡ position_or_len (λ key. bytes_eq name.now key.name) (keys_shown keys.old.entries)) }
    ensures keys { OnOk result
        (keys_shown keys.new.entries ≡ with_key (keys_shown keys.old.entries) name.now) }
{
    if let Some(place) = keys.get_index_of(name) {
        return Ok(place);
    }
    let place = keys.len();
    let copy = copy_of(alloc, name)?;
    let Ok(_) = keys.insert(copy, KeyBuilder::new(alloc)) else {
        return Err(Memory);
    };
    Ok(place)
}

// Takes one more entry of one of the keys.
fn add_to_key(
    keys: &mut IndexMap<Vec<u8>, KeyBuilder>,
    alloc: Global,
    entry: &Entry,
) -> Result<(), Memory>
    requires { (entries : List Entry) × (keys_shown keys.old.entries ≡ keys_of entries)
        × (length entries < most_records) }
    ensures { OnOk result ((entries : List Entry) → keys_shown keys.old.entries ≡ keys_of entries
        → keys_shown keys.new.entries ≡ keys_of (entries ++ entry.now ∷ [])) }
{
    let place = place_of_key(keys, alloc, entry.key)?;
    let key = &mut keys[place];
    key.add(alloc, entry)
}

// The keys, moved and not copied.
fn finished(alloc: Global, keys: IndexMap<Vec<u8>, KeyBuilder>) -> Result<List<KeyOps>, Memory>
    ensures { IfOk result (λ finished. finished ≡ keys_shown keys.entries) }
{
    let Ok(mut finished) = Vec::with_capacity(alloc, keys.len()) else {
        return Err(Memory);
    };
    for (name, key) in keys {
        let key = key.finish(alloc, name)?;
        let Ok(()) = finished.push(key) else {
            return Err(Memory);
        };
    }
    Ok(List::from_vec(finished))
}

/// A history as its entries come. Contracts see it as the history that they make.
#[derive(Drop)]
pub(crate) struct HistoryBuilder {
    keys: IndexMap<Vec<u8>, KeyBuilder>,
    records: u32,
    skipped: u32,
}

impl Model for HistoryBuilder {
    ghost use Rattle.stale_model.specs.declared.History.{History};

    ghost Value = { History };

    ghost use Rattle.history_csv.specs.Building.{keys_shown};

    ghost view = { λ b. record {
      keys = keys_shown b.keys.entries;
      records = b.records;
      skipped = b.skipped;
    } };
}

impl HistoryBuilder {
    /// A history with no entries yet.
    pub(crate) fn new(alloc: Global) -> HistoryBuilder
        ensures { result ≡ history_of [] }
    {
        HistoryBuilder {
            keys: IndexMap::new(alloc),
            records: 0,
            skipped: 0,
        }
    }

    /// Takes one more entry.
    pub(crate) fn add(&mut self, alloc: Global, entry: &Entry) -> Result<(), Memory>
        requires { (entries : List Entry) × (self.old ≡ history_of entries)
            × (length entries < most_records) }
        ensures { OnOk result ((entries : List Entry) → self.old ≡ history_of entries
            → self.new ≡ history_of (entries ++ entry.now ∷ [])) }
    {
        if entry.is_skipped() {
            self.skipped += 1;
        } else {
            add_to_key(&mut self.keys, alloc, entry)?;
        }
        self.records += 1;
        Ok(())
    }

    /// The history, to keep.
    pub(crate) fn finish(self, alloc: Global) -> Result<History, Memory>
        ensures { IfOk result (λ history. history ≡ self) }
    {
        let HistoryBuilder {
            keys,
            records,
            skipped,
        } = self;
        Ok(History {
            keys: finished(alloc, keys)?,
            records,
            skipped,
        })
    }
}
