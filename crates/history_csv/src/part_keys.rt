//! The keys of a part, taken out of its entries at once.
ghost use Rattle.std.specs.Prelude.{◌≡◌, ◌<◌, ◌≤◌, ◌++◌, [], ◌∷◌, ℕ, Some, List, length, map, All, OnOk, IfOk, IfSome};
ghost use Rattle.std.specs.List.{position, position_or_len, range_with_len};
ghost use Rattle.std.specs.Str.{bytes_eq};
ghost use Rattle.history_csv.specs.Entries.{Entry, most_records};
ghost use Rattle.history_csv.specs.Numbering.{contents_of, distinct, key_ops, keys_of, named, value_number};
ghost use Rattle.history_csv.specs.Building.{with_text, with_value};
ghost use Rattle.history_csv.specs.Parting.{slices_shown, values_shown, names_in, place_in, times_in, with_first};

use crate::blocks::Block;
use crate::entry::Entry;
use crate::numbering::{copy_of, op_of};
use indexmap::IndexSet;
use stale_model::{Bytes, KeyOps, List, Memory, Op};
use std::alloc::Global;
use std::marker::Model;

// The values of a key with so many operations are looked for one by one.
const FEW: usize = 32;

// At most so much room is made at once for the values of a key.
const MOST_ROOM: usize = 2048;

// At most so much room is made at once for the keys of a part.
const KEYS_ROOM: usize = 512;

// The values of a key so far.
#[derive(Drop)]
enum Values<'a> {
    Few(Vec<&'a [u8]>),
    Many(IndexSet<&'a [u8]>),
}

// The place of a text among texts.
fn find(texts: &[&[u8]], text: &[u8]) -> Option<usize>
    ensures { result ≡ position (bytes_eq text.now) (slices_shown texts.now) }
{
    for place in 0..texts.len() {
        if text == texts[place] {
            return Some(place);
        }
    }
    None
}

// The place of a text among a few texts, which is put at their end if it is new.
fn place_among_few<'a>(texts: &mut Vec<&'a [u8]>, text: &'a [u8]) -> Result<usize, Memory>
    ensures place { IfOk result (λ place.
        place ≡ position_or_len (bytes_eq text.now) (slices_shown texts.old.items)) }
    ensures texts { OnOk result
        (slices_shown texts.new.items ≡ with_text (slices_shown texts.old.items) text.now) }
{
    if let Some(place) = find(texts.as_slice(), text) {
        return Ok(place);
    }
    let place = texts.len();
    let Ok(()) = texts.push(text) else {
        return Err(Memory);
    };
    Ok(place)
}

// The place of a text, if it is the last of these.
fn last_place(texts: &IndexSet<&[u8]>, text: &[u8]) -> Option<usize>
    ensures { IfSome result (λ place.
        Some place ≡ position (bytes_eq text.now) (slices_shown texts.now.keys)) }
{
    let last = texts.last()?;
    if text == *last {
        Some(texts.len() - 1)
    } else {
        None
    }
}

// The place of a text among many texts, which is put at their end if it is new.
fn place_among_many<'a>(texts: &mut IndexSet<&'a [u8]>, text: &'a [u8]) -> Result<usize, Memory>
    ensures place { IfOk result (λ place.
        place ≡ position_or_len (bytes_eq text.now) (slices_shown texts.old.keys)) }
    ensures texts { OnOk result
        (slices_shown texts.new.keys ≡ with_text (slices_shown texts.old.keys) text.now) }
{
    // Most reads return the value that was written last, which is found with no hash.
    if let Some(place) = last_place(texts, text) {
        return Ok(place);
    }
    let Ok((place, _)) = texts.insert_full(text) else {
        return Err(Memory);
    };
    Ok(place)
}

// Copies of texts, to keep.
fn copies(alloc: Global, texts: &[&[u8]]) -> Result<List<Bytes>, Memory>
    ensures { IfOk result (λ copies. copies ≡ slices_shown texts.now) }
{
    let Ok(mut copies) = Vec::with_capacity(alloc, texts.len()) else {
        return Err(Memory);
    };
    for place in 0..texts.len() {
        let copy = copy_of(alloc, texts[place])?;
        let Ok(()) = copies.push(Bytes::from_vec(copy)) else {
            return Err(Memory);
        };
    }
    Ok(List::from_vec(copies))
}

// No values yet, with room for those of so many operations.
fn no_values<'a>(alloc: Global, count: usize) -> Result<Values<'a>, Memory>
    ensures { IfOk result (λ values. values_shown values ≡ []) }
{
    if count <= FEW {
        match Vec::with_capacity(alloc, count) {
            Ok(texts) => Ok(Values::Few(texts)),
            Err(_) => Err(Memory),
        }
    } else {
        match IndexSet::with_capacity(alloc, count.min(MOST_ROOM)) {
            Ok(texts) => Ok(Values::Many(texts)),
            Err(_) => Err(Memory),
        }
    }
}

impl<'a> Values<'a> {
    // The place of a text, which is put at the end if it is new.
    fn place(&mut self, text: &'a [u8]) -> Result<usize, Memory>
        ensures place { IfOk result (λ place.
            place ≡ position_or_len (bytes_eq text.now) (values_shown self.old)) }
        ensures texts { OnOk result
            (values_shown self.new ≡ with_text (values_shown self.old) text.now) }
    {
        match self {
            Values::Few(texts) => place_among_few(texts, text),
            Values::Many(texts) => place_among_many(texts, text),
        }
    }

    // Copies of them, to keep.
    fn copies(&self, alloc: Global) -> Result<List<Bytes>, Memory>
        ensures { IfOk result (λ copies. copies ≡ values_shown self.now) }
    {
        match self {
            Values::Few(texts) => copies(alloc, texts.as_slice()),
            Values::Many(texts) => copies(alloc, texts.as_slice()),
        }
    }
}

// A key as its entries come. Contracts see it as the key that they make.
#[derive(Drop)]
struct PartKey<'a> {
    name: &'a [u8],
    values: Values<'a>,
    ops: Vec<Op>,
}

impl<'a> Model for PartKey<'a> {
    ghost use Rattle.stale_model.specs.declared.KeyOps.{KeyOps};

    ghost Value = { KeyOps };

    ghost use Rattle.history_csv.specs.Parting.{values_shown};

    ghost view = { λ b. record {
      name = b.name.now;
      values = values_shown b.values;
      ops = b.ops.items;
    } };
}

impl<'a> PartKey<'a> {
    // A key of this name with no entries yet, and with room for so many.
    fn new(alloc: Global, name: &'a [u8], count: usize) -> Result<PartKey<'a>, Memory>
        ensures { IfOk result (λ key. key ≡ named name.now (contents_of [])) }
    {
        let Ok(ops) = Vec::with_capacity(alloc, count) else {
            return Err(Memory);
        };
        Ok(PartKey {
            name,
            values: no_values(alloc, count)?,
            ops,
        })
    }

    // The number of a value, which is a new one where the value is.
    fn number(&mut self, value: &'a [u8]) -> Result<u32, Memory>
        requires { length self.old.values < most_records }
        ensures number { IfOk result (λ number. number ≡ value_number self.old.values value.now) }
        ensures values { OnOk result (self.new.values ≡ with_value self.old.values value.now) }
        ensures ops { OnOk result (self.new.ops ≡ self.old.ops) }
        ensures name { OnOk result (self.new.name ≡ self.old.name) }
    {
        if value.is_empty() {
            return Ok(0);
        }
        let place = self.values.place(value)?;
        Ok(place as u32 + 1)
    }

    // Takes one more entry of the key.
    fn add(&mut self, entry: &Entry<'a>) -> Result<(), Memory>
        requires { (name : List ℕ) × (entries : List Entry)
            × (self.old ≡ named name (contents_of entries)) × (length entries < most_records) }
        ensures { OnOk result ((name : List ℕ) (entries : List Entry)
            → self.old ≡ named name (contents_of entries)
            → self.new ≡ named name (contents_of (entries ++ entry.now ∷ []))) }
    {
        let value = self.number(entry.value)?;
        let Ok(()) = self.ops.push(op_of(entry, value)) else {
            return Err(Memory);
        };
        Ok(())
    }

    // The key, to keep, beside its first record.
    fn finish(self, alloc: Global) -> Result<(u32, KeyOps), Memory>
        ensures { IfOk result (λ key. key ≡ with_first self.entry) }
    {
        let PartKey { name, values, ops } = self;
        let first = match ops.first() {
            Some(op) => op.rec,
            None => 0,
        };
        let key = KeyOps {
            name: Bytes::from_vec(copy_of(alloc, name)?),
            values: values.copies(alloc)?,
            ops: List::from_vec(ops),
        };
        Ok((first, key))
    }
}

// The names of the keys of a part, and the place among them of each entry's.
#[derive(Drop)]
struct Names<'a> {
    names: IndexSet<&'a [u8]>,
    places: Vec<usize>,
}

// The names of the keys of entries, by first appearance.
fn names_of<'a>(alloc: Global, block: &'a Block) -> Result<Names<'a>, Memory>
    ensures names { IfOk result (λ found.
        slices_shown found.names.keys ≡ distinct (names_in block.now)) }
    ensures places { IfOk result (λ found.
        found.places.items ≡ map (place_in (distinct (names_in block.now))) block.now) }
{
    let Ok(mut names) = IndexSet::with_capacity(alloc, block.len().min(KEYS_ROOM)) else {
        return Err(Memory);
    };
    let Ok(mut places) = Vec::with_capacity(alloc, block.len()) else {
        return Err(Memory);
    };
    for place in 0..block.len() {
        let entry = block.entry(place);
        let key = place_among_many(&mut names, entry.key)?;
        let Ok(()) = places.push(key) else {
            return Err(Memory);
        };
    }
    Ok(Names { names, places })
}

// How often each number below a count stands among numbers.
fn counts_of(alloc: Global, numbers: &[usize], count: usize) -> Result<Vec<usize>, Memory>
    requires { All (λ number. number < count) numbers.now }
    ensures times { IfOk result (λ counts.
        counts.items ≡ map (times_in numbers.now) (range_with_len 0 count)) }
    ensures len { IfOk result (λ counts. length counts.items ≡ count) }
{
    let Ok(mut counts) = vec![in alloc; 0usize; count] else {
        return Err(Memory);
    };
    for place in 0..numbers.len() {
        counts[numbers[place]] += 1;
    }
    Ok(counts)
}

// The keys of these names with no entries yet, with room for so many of each.
fn empty_keys<'a>(
    alloc: Global,
    names: &[&'a [u8]],
    counts: &[usize],
) -> Result<Vec<PartKey<'a>>, Memory>
    requires { length names.now ≤ length counts.now }
    ensures { IfOk result (λ keys. keys.items ≡ map (key_ops []) (slices_shown names.now)) }
{
    let Ok(mut keys) = Vec::with_capacity(alloc, names.len()) else {
        return Err(Memory);
    };
    for place in 0..names.len() {
        let key = PartKey::new(alloc, names[place], counts[place])?;
        let Ok(()) = keys.push(key) else {
            return Err(Memory);
        };
    }
    Ok(keys)
}

// Gives each of the keys its entries.
fn fill<'a>(keys: &mut Vec<PartKey<'a>>, block: &'a Block, places: &[usize]) -> Result<(), Memory>
    requires few { length block.now ≤ most_records }
    requires keys { keys.old.items ≡ map (key_ops []) (distinct (names_in block.now)) }
    requires places { places.now ≡ map (place_in (distinct (names_in block.now))) block.now }
    ensures { OnOk result (keys.new.items ≡ keys_of block.now) }
{
    for place in 0..block.len() {
        let entry = block.entry(place);
        let key = &mut keys[places[place]];
        key.add(&entry)?;
    }
    Ok(())
}

// The keys of entries, whose texts stand there.
fn part_keys<'a>(alloc: Global, block: &'a Block) -> Result<Vec<PartKey<'a>>, Memory>
    requires { length block.now ≤ most_records }
    ensures { IfOk result (λ keys. keys.items ≡ keys_of block.now) }
{
    let Names { names, places } = names_of(alloc, block)?;
    let counts = counts_of(alloc, places.as_slice(), names.len())?;
    let mut keys = empty_keys(alloc, names.as_slice(), counts.as_slice())?;
    fill(&mut keys, block, places.as_slice())?;
    Ok(keys)
}

/// Puts the keys of entries behind those found so far, each beside its first record.
pub(crate) fn take_apart(
    alloc: Global,
    block: Block,
    found: &mut Vec<(u32, KeyOps)>,
) -> Result<(), Memory>
    requires { length block ≤ most_records }
    ensures { OnOk result (found.new.items ≡ found.old.items ++ map with_first (keys_of block)) }
{
    for key in part_keys(alloc, &block)? {
        let key = key.finish(alloc)?;
        let Ok(()) = found.push(key) else {
            return Err(Memory);
        };
    }
    Ok(())
}
