//! A replica of the store: of each key it holds one pair, and it keeps each request with its reply in a journal.
#![tactic(auto)]

ghost use Rattle.std.specs.Prelude.{◌≡◌, ℕ, ◌+◌, ◌-◌, ◌<◌, ◌≤◌, nat_lt, List, [], ◌∷◌, ◌++◌, length, All, IfOk, slice_index_or, replicate};
ghost use Rattle.stale_model.specs.declared.store.JournalEntry.{JournalEntry};
ghost use Rattle.stale_model.specs.Journals.{changes, held_after, held, answer_to, IsServed, IsJournal};
ghost use Rattle.replica_node.specs.Pairs.{as_pair};
ghost use Rattle.replica_node.specs.declared.HeldPair.{HeldPair};

#[cfg(test)]
mod tests;

use stale_model::{Ask, JournalEntry, List, Memory, Reply, Request};
use std::alloc::Global;
use std::marker::Model;
use ticket_clock::{Clock, Seat};

/// What is held of a key: a value, and the start of its write.
#[derive(Clone, Copy, Debug, PartialEq, Eq)]
pub struct HeldPair {
    /// The ticket at which the write of the value started; 0 where nobody wrote.
    pub stamp: u64,
    /// The number of the value, counted from 1; 0 is absent.
    pub value: u32,
}

/// A replica. A contract sees its number, how many keys it has, how many places its journal has, and the journal.
#[derive(Drop)]
pub struct Replica {
    number: u32,
    places: u32,
    /// What is held of each key, by its number.
    held: Vec<HeldPair>,
    journal: Vec<JournalEntry>,
}

impl Model for Replica {
    ghost use Rattle.std.specs.Prelude.{vec_len};
    ghost use Rattle.replica_node.specs.Replicas.{ReplicaView};

    ghost Value = { ReplicaView };

    ghost use Rattle.replica_node.specs.Invariant.{IsReplica};

    ghost view = { λ r. record {
      number = r.number;
      keys = vec_len r.held;
      places = r.places;
      journal = r.journal.items;
    } };

    ghost invariant = { IsReplica };
}

impl Replica {
    /// A replica of this number, counted from 0, with as many keys, which holds nothing, and has room for as many
    /// requests. The only error is want of memory.
    pub fn prepare(alloc: Global, number: u32, keys: u32, requests: u32) -> Result<Replica, Memory>
        ensures { IfOk result (λ replica. replica ≡ record {
          number = number;
          keys = keys;
          places = requests;
          journal = [];
        }) }
    {
        let held = hold_nothing(alloc, keys)?;
        let Ok(journal) = Vec::with_capacity(alloc, requests as usize) else {
            return Err(Memory);
        };
        Ok(Replica {
            number,
            places: requests,
            held,
            journal,
        })
    }

    /// Its number.
    pub fn number(&self) -> u32
        ensures { result ≡ self.now.number }
    {
        self.number
    }

    /// Whether its journal has a place left.
    pub fn has_room(&self) -> bool
        ensures { result ≡ nat_lt (length self.now.journal) self.now.places }
    {
        self.journal.len() < self.places as usize
    }

    /// Serves a request of one of the keys: draws its ticket, and keeps it with its reply at the end of the journal. A
    /// read gets what is held of the key; a write or a repair gets its own pair, which is held from then on if its
    /// stamp is greater.
    pub fn serve(&mut self, clock: &Clock, seat: &mut Seat, request: Request) -> Reply
        requires own { seat.old.clock ≡ clock.now.id }
        requires left { 1 ≤ seat.old.left }
        requires place { length self.old.journal < self.old.places }
        requires key { request.key < self.old.keys }
        requires started { request.start < seat.old.seen }
        requires later { All (λ j. j.reply.serve < seat.old.seen) self.old.journal }
        ensures ticket { seat.old.seen ≤ result.serve }
        ensures served { IsServed self.old.number self.old.journal
            (record { request = request; reply = result }) }
        ensures replica { self.new ≡ record self.old {
          journal = self.old.journal ++ record { request = request; reply = result } ∷ [];
        } }
        ensures seat { seat.new ≡ record seat.old {
          drawn = seat.old.drawn ++ result.serve ∷ [];
          left = seat.old.left - 1;
          seen = result.serve + 1;
        } }
        ensures later { All (λ j. j.reply.serve < seat.new.seen) self.new.journal }
    {
        let serve = clock.draw(seat);
        let pair = answer(&request, self.held[request.key as usize]);
        let reply = Reply {
            replica: self.number,
            client: request.client,
            seq: request.seq,
            serve,
            stamp: pair.stamp,
            value: pair.value,
        };
        let entry = JournalEntry { request, reply };
        hold(&mut self.held, &entry);
        match self.journal.push(entry) {
            Ok(()) => reply,
            Err(_) => unreachable!(),
        }
    }

    /// The requests that were served, with their replies, in the order in which they were served.
    pub fn journal(&self) -> &[JournalEntry]
        ensures journal { result.now ≡ self.now.journal }
        ensures served { IsJournal self.now.number self.now.journal }
    {
        self.journal.as_slice()
    }

    /// The journal, to keep.
    pub fn into_journal(self) -> List<JournalEntry>
        ensures journal { result ≡ self.journal }
        ensures served { IsJournal self.number self.journal }
    {
        let Replica { journal, .. } = self;
        List::from_vec(journal)
    }
}

// Nothing held of each key.
fn hold_nothing(alloc: Global, keys: u32) -> Result<Vec<HeldPair>, Memory>
    ensures { IfOk result (λ held. held.items ≡ replicate keys (record { stamp = 0; value = 0 })) }
{
    let nothing = HeldPair { stamp: 0, value: 0 };
    vec![in alloc; nothing; keys as usize].map_err(|_| Memory)
}

/// The pair of the reply to a request, where this is held of its key: for a read what is held, else what the request says.
pub fn answer(request: &Request, here: HeldPair) -> HeldPair
    ensures { (js : List JournalEntry) → held request.now.key js ≡ as_pair here
        → as_pair result ≡ answer_to js request.now request.now.ask }
{
    match request.ask {
        Ask::Read => here,
        Ask::Write { value } => HeldPair {
            stamp: request.start,
            value,
        },
        Ask::Repair { stamp, value } => HeldPair { stamp, value },
    }
}

/// Whether a request changes what is held: a write or a repair.
pub fn changes(ask: Ask) -> bool
    ensures { result ≡ changes ask }
{
    match ask {
        Ask::Read => false,
        Ask::Write { .. } | Ask::Repair { .. } => true,
    }
}

// Holds the pair of a write or a repair, where its stamp is greater than what is held of the key.
fn hold(held: &mut [HeldPair], entry: &JournalEntry)
    requires { entry.now.request.key < length held.old }
    ensures { (key : ℕ) (past : HeldPair) → key < length held.old
        → as_pair (slice_index_or held.new key past)
        ≡ held_after (as_pair (slice_index_or held.old key past)) key (entry.now ∷ []) }
{
    let key = entry.request.key as usize;
    if changes(entry.request.ask) && held[key].stamp < entry.reply.stamp {
        held[key] = HeldPair {
            stamp: entry.reply.stamp,
            value: entry.reply.value,
        };
    }
}
