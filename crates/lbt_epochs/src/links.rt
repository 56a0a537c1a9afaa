//! Places that are linked in a ring, each with the one before it and the one after it.
ghost use Rattle.std.specs.Prelude.{◌≡◌, ℕ, ◌+◌, ◌-◌, ◌<◌, true, length, IfOk};
ghost use Rattle.std.specs.List.{range_with_len};
ghost use Rattle.lbt_epochs.specs.Links.{unlinked, relinked, with_last, place_after, all_alone, has, AreApart, IsRing};

use std::alloc::{AllocError, Global};
use std::marker::Model;

/// Places that are linked in a ring, each with the one before it and the one after it. One more node, the last, stands
/// for both ends of the ring.
#[derive(Drop)]
pub struct Links {
    next: Vec<u32>,
    previous: Vec<u32>,
}

impl Model for Links {
    ghost use Rattle.lbt_epochs.specs.Links.{Links as Nodes, AreNodes};

    ghost Value = { Nodes };

    ghost view = { λ l. record { next = l.next.items; previous = l.previous.items } };

    ghost invariant = { λ l. AreNodes (record {
      next = l.next.items;
      previous = l.previous.items;
    }) };
}

// The numbers up to this one, which is among them.
fn numbers_up_to(alloc: Global, end: u32) -> Result<Vec<u32>, AllocError>
    ensures { IfOk result (λ numbers. numbers.items ≡ range_with_len 0 (end + 1)) }
{
    (0..end as usize + 1)
        .map(|number| number as u32)
        .collect(alloc)
}

impl Links {
    // Each node up to the end stands alone.
    fn alone(alloc: Global, end: u32) -> Result<Links, AllocError>
        ensures { IfOk result (λ links. links ≡ all_alone end) }
    {
        let next = numbers_up_to(alloc, end)?;
        let previous = numbers_up_to(alloc, end)?;
        Ok(Links { next, previous })
    }

    // Puts a node that stands alone behind the last place.
    fn put_last(&mut self, at: u32)
        requires { at + 1 < length self.old.next }
        ensures { self.new ≡ with_last self.old (length self.old.next - 1) at }
    {
        let end = self.next.len() - 1;
        let last = self.previous[end];
        self.next[last as usize] = at;
        self.previous[at as usize] = last;
        self.next[at as usize] = end as u32;
        self.previous[end] = at;
    }

    /// The ring of an order of places below the end, in which no place stands twice. Each other place stands alone.
    ///
    /// # Errors
    /// Where memory ran out.
    pub fn of(alloc: Global, end: u32, order: &[u32]) -> Result<Links, AllocError>
        requires below { (at : ℕ) → has order.now at ≡ true → at < end }
        requires apart { AreApart order.now }
        ensures { IfOk result (IsRing end (range_with_len 0 end) order.now) }
    {
        let mut links = Links::alone(alloc, end)?;
        for at in order {
            links.put_last(*at);
        }
        Ok(links)
    }

    /// Leaves a node out: what stood after it follows what stood before it. The node itself keeps its two.
    pub fn take(&mut self, at: u32)
        requires { at < length self.old.next }
        ensures { self.new ≡ unlinked self.old at }
    {
        let before = self.previous[at as usize];
        let after = self.next[at as usize];
        self.next[before as usize] = after;
        self.previous[after as usize] = before;
    }

    /// Puts a node that was left out back between its two.
    pub fn put_back(&mut self, at: u32)
        requires { at < length self.old.next }
        ensures { self.new ≡ relinked self.old at }
    {
        let before = self.previous[at as usize];
        let after = self.next[at as usize];
        self.next[before as usize] = at;
        self.previous[after as usize] = at;
    }

    /// The place after this one, if it is not the end.
    pub fn after(&self, at: u32) -> Option<u32>
        requires { at < length self.now.next }
        ensures { result ≡ place_after self.now at }
    {
        let next = self.next[at as usize];
        if (next as usize) + 1 < self.next.len() {
            Some(next)
        } else {
            None
        }
    }

    /// The first place.
    pub fn first(&self) -> Option<u32>
        ensures { result ≡ place_after self.now (length self.now.next - 1) }
    {
        self.after((self.next.len() - 1) as u32)
    }
}
