//! The places of clusters in three orders, from which places are taken and put back.
ghost use Rattle.std.specs.Prelude.{◌≡◌, ℕ, ◌+◌, ◌-◌, ◌^◌, ◌<◌, true, [], ◌∷◌, ◌++◌, length, take, slice_get, Contains, is_some, IfOk};
ghost use Rattle.stale_model.specs.Chains.{candidate_order};
ghost use Rattle.stale_model.specs.Orders.{StandsAt};
ghost use Rattle.lbt_epochs.specs.Lists.{with_placed, left, cluster_at, late_write_order, late_read_order, ArePlacesBy, AreListsOf};

use crate::keys::{
    Key, falling_cmp, fill_by_finish, fill_by_reads, fill_by_write, late_cmp, places_in,
};
use crate::links::Links;
use stale_model::{Cluster, Memory};
use std::alloc::{AllocError, Global};
use std::marker::Model;

/// The cluster at a place.
pub(crate) fn cluster_at(clusters: &[Cluster], at: u32) -> Cluster
    requires { at < length clusters.now }
    ensures { result ≡ cluster_at clusters.now at }
{
    clusters[at as usize]
}

// The places of the clusters in the order of candidates.
fn candidate_places(
    alloc: Global,
    keys: &mut Vec<Key>,
    clusters: &[Cluster],
) -> Result<Vec<u32>, AllocError>
    requires few { length clusters.now < 2 ^ 32 }
    ensures { let are = ArePlacesBy clusters.now (λ c. true) candidate_order in
        IfOk result (λ places. are places.items) }
{
    fill_by_finish(keys, clusters)?;
    keys.sort_unstable_by(|a, b| falling_cmp(a, b));
    places_in(alloc, keys)
}

// The places of the clusters, the latest writes first.
fn late_write_places(
    alloc: Global,
    keys: &mut Vec<Key>,
    clusters: &[Cluster],
) -> Result<Vec<u32>, AllocError>
    requires few { length clusters.now < 2 ^ 32 }
    ensures { let are = ArePlacesBy clusters.now (λ c. true) late_write_order in
        IfOk result (λ places. are places.items) }
{
    fill_by_write(keys, clusters)?;
    keys.sort_unstable_by(|a, b| late_cmp(a, b));
    places_in(alloc, keys)
}

// The places of the clusters with reads, the latest reads first.
fn late_read_places(
    alloc: Global,
    keys: &mut Vec<Key>,
    clusters: &[Cluster],
) -> Result<Vec<u32>, AllocError>
    requires few { length clusters.now < 2 ^ 32 }
    ensures { let are = ArePlacesBy clusters.now (λ c. is_some c.s) late_read_order in
        IfOk result (λ places. are places.items) }
{
    fill_by_reads(keys, clusters)?;
    keys.sort_unstable_by(|a, b| late_cmp(a, b));
    places_in(alloc, keys)
}

/// The places of clusters in three orders, and those that are placed. Of each order those that are not placed are linked
/// in a ring, so that each call but `prepare` takes constant time.
#[derive(Drop)]
pub struct Lists {
    candidates: Vec<u32>,
    writes: Vec<u32>,
    reads: Vec<u32>,
    placed: Vec<u32>,
    by_candidate: Links,
    by_write: Links,
    by_read: Links,
}

impl Model for Lists {
    ghost use Rattle.std.specs.Vec.{vec_capacity};
    ghost use Rattle.lbt_epochs.specs.Lists.{Lists as Places};
    ghost use Rattle.lbt_epochs.specs.Links.{AreKept};

    ghost Value = { Places };

    ghost view = { λ l. record {
      candidates = l.candidates.items;
      writes = l.writes.items;
      reads = l.reads.items;
      placed = l.placed.items;
    } };

    ghost invariant = { λ l. AreKept (record {
      candidates = l.candidates.items;
      writes = l.writes.items;
      reads = l.reads.items;
      placed = l.placed.items;
    }) (vec_capacity l.placed) l.by_candidate l.by_write l.by_read };
}

impl Lists {
    // The lists of these clusters, none of which is placed.
    fn of(alloc: Global, clusters: &[Cluster]) -> Result<Lists, AllocError>
        requires few { length clusters.now < 2 ^ 32 }
        ensures lists { IfOk result (AreListsOf clusters.now) }
        ensures placed { IfOk result (λ lists. lists.placed ≡ []) }
    {
        let end = clusters.len() as u32;
        let mut keys = Vec::with_capacity(alloc, clusters.len())?;
        let candidates = candidate_places(alloc, &mut keys, clusters)?;
        let writes = late_write_places(alloc, &mut keys, clusters)?;
        let reads = late_read_places(alloc, &mut keys, clusters)?;
        let by_candidate = Links::of(alloc, end, &candidates)?;
        let by_write = Links::of(alloc, end, &writes)?;
        let by_read = Links::of(alloc, end, &reads)?;
        let placed = Vec::with_capacity(alloc, clusters.len())?;
        Ok(Lists {
            candidates,
            writes,
            reads,
            placed,
            by_candidate,
            by_write,
            by_read,
        })
    }

    /// The lists of these clusters, none of which is placed.
    ///
    /// # Errors
    /// `Memory` where memory ran out.
    pub fn prepare(alloc: Global, clusters: &[Cluster]) -> Result<Lists, Memory>
        requires few { length clusters.now < 2 ^ 32 }
        ensures lists { IfOk result (AreListsOf clusters.now) }
        ensures placed { IfOk result (λ lists. lists.placed ≡ []) }
    {
        match Lists::of(alloc, clusters) {
            Ok(lists) => Ok(lists),
            Err(_) => Err(Memory),
        }
    }

    /// The places that are placed, from the first placed to the last.
    pub fn placed(&self) -> &[u32]
        ensures { result.now ≡ self.now.placed }
    {
        self.placed.as_slice()
    }

    /// Places the cluster at this place, which is not placed yet.
    pub fn place(&mut self, at: u32)
        requires { Contains (left self.old.placed self.old.candidates) at }
        ensures { self.new ≡ with_placed self.old (self.old.placed ++ at ∷ []) }
    {
        self.by_candidate.take(at);
        self.by_write.take(at);
        self.by_read.take(at);
        self.placed.push_reserved(at);
    }

    /// Puts the one that was placed last back among the others.
    pub fn undo(&mut self)
        requires { 0 < length self.old.placed }
        ensures { let placed = self.old.placed in
            self.new ≡ with_placed self.old (take (length placed - 1) placed) }
    {
        let Some(at) = self.placed.pop() else {
            unreachable!()
        };
        self.by_candidate.put_back(at);
        self.by_write.put_back(at);
        self.by_read.put_back(at);
    }

    /// The first candidate: the one not placed with the greatest f, on a tie the greatest write record.
    pub fn first_candidate(&self) -> Option<u32>
        ensures { result ≡ slice_get (left self.now.placed self.now.candidates) 0 }
    {
        self.by_candidate.first()
    }

    /// The candidate after this one.
    pub fn next_candidate(&self, at: u32) -> Option<u32>
        requires { Contains (left self.now.placed self.now.candidates) at }
        ensures { let candidates = left self.now.placed self.now.candidates in
            (i : ℕ) → StandsAt candidates i at → result ≡ slice_get candidates (i + 1) }
    {
        self.by_candidate.after(at)
    }

    /// The one not placed whose write starts latest, on a tie the least write record.
    pub fn late_write(&self) -> Option<u32>
        ensures { result ≡ slice_get (left self.now.placed self.now.writes) 0 }
    {
        self.by_write.first()
    }

    /// The two not placed whose reads start latest, on a tie the least write record first.
    pub fn late_reads(&self) -> (Option<u32>, Option<u32>)
        ensures first { result.0 ≡ slice_get (left self.now.placed self.now.reads) 0 }
        ensures second { result.1 ≡ slice_get (left self.now.placed self.now.reads) 1 }
    {
        match self.by_read.first() {
            Some(first) => (Some(first), self.by_read.after(first)),
            None => (None, None),
        }
    }

    /// The one not placed whose reads start third latest, by the same order.
    pub fn third_late_read(&self) -> Option<u32>
        ensures { result ≡ slice_get (left self.now.placed self.now.reads) 2 }
    {
        let first = self.by_read.first()?;
        let second = self.by_read.after(first)?;
        self.by_read.after(second)
    }
}
