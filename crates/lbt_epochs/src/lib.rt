//! Whether a key is 2-atomic: limited backtracking over its clusters (after Golab, Hurwitz and Li 2013).
#![tactic(auto)]

mod candidates;
mod chains;
mod epochs;
mod keys;
mod links;
mod lists;
mod rounds;
mod two_laws;

pub use epochs::{has_listing_at, two_atomic, two_atomic_at};
pub use lists::Lists;
pub use two_laws::{
    answers_exist, answers_tell_whether_listed, listings_are_answered, refutations_are_answered,
};

#[cfg(test)]
mod tests;
