//! Places in a balanced tree.

ghost use Rattle.std.specs.Prelude.{◌≡◌, ◌<◌, length, slice_set, replicate, IfOk};
ghost use Rattle.live_score.specs.Places.{AreRising, unused};
ghost use Rattle.live_score.specs.Trees.{top_of, greatest, places_of, IsSummed};

use super::Place;
use super::leaf::{Leaf, join};
use stale_model::Memory;
use std::alloc::Global;

/// How many places a leaf has at most.
const LEAF_PLACES: usize = 64;

/// Places in order. A node has how many places its left side has, and the greatest f, w and s of all its places.
#[derive(Drop)]
pub enum Tree {
    Leaf(Leaf),
    Node(Box<Tree>, usize, Place, Box<Tree>),
}

impl Tree {
    /// So many places, all unused: a tree as deep as the count of its leaves has binary digits. The only error is want
    /// of memory.
    pub fn prepare(alloc: Global, count: usize) -> Result<Tree, Memory>
        ensures summed { IfOk result IsSummed }
        ensures places { IfOk result (λ tree. places_of tree ≡ replicate count unused) }
    {
        if count <= LEAF_PLACES {
            return Ok(Tree::Leaf(Leaf::prepare(alloc, count)?));
        }
        let half = count / 2;
        let left = Tree::prepare(alloc, half)?;
        let right = Tree::prepare(alloc, count - half)?;
        let top = join(&left.top(), &right.top());
        let left = Box::new(alloc, left).map_err(|_| Memory)?;
        let right = Box::new(alloc, right).map_err(|_| Memory)?;
        Ok(Tree::Node(left, half, top, right))
    }

    /// The greatest f, w and s of all places.
    fn top(&self) -> Place
        requires { IsSummed self.now }
        ensures { result ≡ top_of (places_of self.now) }
    {
        match self {
            Tree::Leaf(leaf) => leaf.top,
            Tree::Node(_, _, top, _) => *top,
        }
    }

    /// Puts a place at a number, counted from 0.
    pub fn put(&mut self, at: usize, place: Place)
        requires summed { IsSummed self.old }
        requires within { at < length (places_of self.old) }
        ensures summed { IsSummed self.new }
        ensures places { places_of self.new ≡ slice_set (places_of self.old) at place }
    {
        match self {
            Tree::Leaf(leaf) => leaf.put(at, place),
            Tree::Node(left, size, top, right) => {
                if at < *size {
                    left.put(at, place);
                } else {
                    right.put(at - *size, place);
                }
                *top = join(&left.top(), &right.top());
            }
        }
    }

    /// The greatest score of a place with one of these. Along places with rising f, the sides of a place towards them
    /// up to each rise, and their sides towards it fall: the greatest score stands where the two cross.
    pub fn greatest_score(&self, c: &Place) -> u64
        requires { IsSummed self.now }
        ensures { AreRising (places_of self.now) → result ≡ greatest c.now (places_of self.now) }
    {
        match self {
            Tree::Leaf(leaf) => leaf.greatest_score(c),
            Tree::Node(left, _, _, right) => {
                let top = left.top();
                let reached = c.side(&top);
                if top.side(c) <= reached {
                    left.greatest_score(c)
                } else {
                    reached.max(right.greatest_score(c))
                }
            }
        }
    }
}
