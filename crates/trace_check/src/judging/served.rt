//! Whether each journal is one of its replica.
ghost use Rattle.std.specs.Prelude.{◌≡◌, ◌↔◌, ℕ, [], ◌∷◌, IsTrue, IfOk};
ghost use Rattle.stale_model.specs.Journals.{held_after, IsJournal};
ghost use Rattle.stale_model.specs.RecordedRuns.{journal_of};
ghost use Rattle.replica_node.specs.Pairs.{as_pair};
ghost use Rattle.trace_check.specs.JournalSteps.{held_in, MayFollow};

use replica_node::{HeldPair, answer, changes};
use stale_model::{JournalEntry, List, Memory};
use std::alloc::Global;
use std::collections::BTreeMap;

/// What is held of a key that nobody wrote.
const NOTHING: HeldPair = HeldPair { stamp: 0, value: 0 };

// What is held of a key.
fn held_of(held: &BTreeMap<u32, HeldPair>, key: u32) -> HeldPair
    ensures { as_pair result ≡ held_in held.now key }
{
    match held.get(&key) {
        Some(pair) => *pair,
        None => NOTHING,
    }
}

// Holds the pair of a write or a repair, where its stamp is greater than what is held of its key.
fn hold(held: &mut BTreeMap<u32, HeldPair>, entry: &JournalEntry) -> Result<(), Memory>
    ensures { IfOk result (λ _. (key : ℕ) → held_in held.new key
        ≡ held_after (held_in held.old key) key (entry.now ∷ [])) }
{
    let key = entry.request.key;
    let pair = HeldPair {
        stamp: entry.reply.stamp,
        value: entry.reply.value,
    };
    if changes(entry.request.ask) && held_of(held, key).stamp < pair.stamp {
        held.insert(key, pair).map_err(|_| Memory)?;
    }
    Ok(())
}

// Whether a replica may keep an entry after one that was served at `last`, where the reply has to have this pair.
fn may_follow(replica: usize, last: u64, pair: HeldPair, entry: &JournalEntry) -> bool
    ensures { IsTrue result ↔ MayFollow replica last pair entry.now }
{
    let request = &entry.request;
    let reply = &entry.reply;
    last < reply.serve
        && request.start < reply.serve
        && reply.replica as usize == replica
        && reply.client == request.client
        && reply.seq == request.seq
        && reply.stamp == pair.stamp
        && reply.value == pair.value
}

// Whether the entries are a journal of this replica.
fn is_journal(alloc: Global, replica: usize, journal: &[JournalEntry]) -> Result<bool, Memory>
    ensures { IfOk result (λ holds. IsTrue holds ↔ IsJournal replica journal.now) }
{
    let mut held = BTreeMap::new(alloc);
    let mut last = 0;
    for entry in journal {
        let pair = answer(&entry.request, held_of(&held, entry.request.key));
        if !may_follow(replica, last, pair, entry) {
            return Ok(false);
        }
        hold(&mut held, entry)?;
        last = entry.reply.serve;
    }
    Ok(true)
}

/// Whether each journal is one of its replica.
pub(crate) fn are_journals(alloc: Global, journals: &[List<JournalEntry>]) -> Result<bool, Memory>
    ensures { IfOk result (λ holds. IsTrue holds
        ↔ ((replica : ℕ) → IsJournal replica (journal_of journals.now replica))) }
{
    for (replica, journal) in journals.iter().enumerate() {
        if !is_journal(alloc, replica, journal.as_slice())? {
            return Ok(false);
        }
    }
    Ok(true)
}
