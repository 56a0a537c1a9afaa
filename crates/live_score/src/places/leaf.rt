//! Some dozens of places.

ghost use Rattle.std.specs.Prelude.{◌≡◌, ◌<◌, length, slice_set, replicate, IfOk};
ghost use Rattle.live_score.specs.Places.{unused};
ghost use Rattle.live_score.specs.Trees.{join, top_of, greatest, IsSummedLeaf};

use super::{Place, UNUSED};
use stale_model::Memory;
use std::alloc::Global;

/// Places in order, and the greatest f, w and s of them.
#[derive(Drop)]
pub struct Leaf {
    pub top: Place,
    pub places: Vec<Place>,
}

/// The greatest f, w and s of two.
pub fn join(a: &Place, b: &Place) -> Place
    ensures { result ≡ join a.now b.now }
{
    Place {
        f: a.f.max(b.f),
        w: a.w.max(b.w),
        s: a.s.max(b.s),
    }
}

/// The greatest f, w and s of places.
#[tactic(auto, using(crate::proofs::Greatest::top_of_more))]
fn top_of(places: &[Place]) -> Place
    ensures { result ≡ top_of places.now }
{
    let mut top = Place { f: 0, w: 0, s: 0 };
    for place in places {
        top = join(&top, place);
    }
    top
}

/// The greatest score of a place with others; 0 where there is none.
#[tactic(auto, using(crate::proofs::Greatest::greatest_more))]
fn greatest_among(c: &Place, places: &[Place]) -> u64
    ensures { result ≡ greatest c.now places.now }
{
    let mut greatest = 0;
    for place in places {
        greatest = c.score(place).max(greatest);
    }
    greatest
}

impl Leaf {
    /// So many places, all unused. The only error is want of memory.
    pub fn prepare(alloc: Global, count: usize) -> Result<Leaf, Memory>
        ensures summed { IfOk result IsSummedLeaf }
        ensures places { IfOk result (λ leaf. leaf.places.items ≡ replicate count unused) }
    {
        let places = vec![in alloc; UNUSED; count].map_err(|_| Memory)?;
        Ok(Leaf {
            top: top_of(&places),
            places,
        })
    }

    /// Puts a place at a number, counted from 0.
    pub fn put(&mut self, at: usize, place: Place)
        requires { at < length self.old.places.items }
        ensures summed { IsSummedLeaf self.new }
        ensures places { self.new.places.items ≡ slice_set self.old.places.items at place }
    {
        self.places[at] = place;
        self.top = top_of(&self.places);
    }

    /// The greatest score of a place with one of these.
    pub fn greatest_score(&self, c: &Place) -> u64
        ensures { result ≡ greatest c.now self.now.places.items }
    {
        greatest_among(c, &self.places)
    }
}
