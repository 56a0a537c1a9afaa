//! What decides the scores of clusters, in the order in which their first operations finished.

ghost use Rattle.std.specs.Prelude.{◌≡◌, ℕ, ◌<◌, ◌≤◌, ◌↔◌, length, slice_set, replicate, All, IfOk};
ghost use Rattle.live_score.specs.Places.{side, score, AreRising, unused};

mod leaf;
mod tree;

use stale_model::Memory;
use std::alloc::Global;
use std::marker::Model;
use tree::Tree;

/// What decides the score of a cluster with another.
#[derive(Clone, Copy, Debug, PartialEq, Eq)]
pub struct Place {
    /// The least tick at which all of one of its operations may have finished.
    pub f: u64,
    /// The least tick at which its write may have started; 0 where it does not count.
    pub w: u64,
    /// The greatest of the least ticks at which its reads may have started; 0 without reads, or where it does not count.
    pub s: u64,
}

/// A place that no cluster has.
pub const UNUSED: Place = Place {
    f: u64::MAX,
    w: 0,
    s: 0,
};

impl Place {
    /// The least d at which no operation of another place starts after the first of this one finished, where reads are
    /// taken to start d earlier: the greatest number where the write of the other does.
    fn side(&self, other: &Place) -> u64
        ensures { result ≡ side self.now other.now }
    {
        if self.f < other.w {
            u64::MAX
        } else {
            other.s.saturating_sub(self.f)
        }
    }

    /// The score of two places: the lesser of their sides.
    fn score(&self, other: &Place) -> u64
        ensures { result ≡ score self.now other.now }
    {
        self.side(other).min(other.side(self))
    }
}

/// The places of clusters. Contracts see the list of the places.
#[derive(Drop)]
pub struct Places {
    tree: Tree,
}

impl Model for Places {
    ghost use Rattle.std.specs.Prelude.{List};
    ghost use Rattle.live_score.specs.declared.places.Place.{Place};

    ghost Value = { List Place };

    ghost use Rattle.live_score.specs.Trees.{places_of, IsSummed};

    ghost view = { λ p. places_of p.tree };

    ghost invariant = { λ p. IsSummed p.tree };
}

impl Places {
    /// So many places, all unused. All memory is taken here.
    ///
    /// # Errors
    /// `Memory` may come at any time.
    pub fn prepare(alloc: Global, count: usize) -> Result<Places, Memory>
        requires { 0 < count }
        ensures { IfOk result (λ places. places ≡ replicate count unused) }
    {
        let tree = Tree::prepare(alloc, count)?;
        Ok(Places { tree })
    }

    /// Puts a place at a number, counted from 0, in the time of the logarithm of the number of places.
    pub fn put(&mut self, at: usize, place: Place)
        requires { at < length self.old }
        ensures { self.new ≡ slice_set self.old at place }
    {
        self.tree.put(at, place);
    }

    /// The greatest score of a place with one of these, where their f does not fall: 0 where each is 0. Takes the time
    /// of the logarithm of the number of places.
    pub fn greatest_score(&self, c: &Place) -> u64
        ensures { AreRising self.now → (bound : ℕ) → (result ≤ bound) ↔ All (λ x. score c.now x ≤ bound) self.now }
    {
        self.tree.greatest_score(c)
    }
}
