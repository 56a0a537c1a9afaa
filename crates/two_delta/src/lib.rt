//! How stale the reads of a key got, where each may return one of the last two writes: the least Δ for 2-atomicity
//! (after Golab, Li and Shah 2011, and Golab, Hurwitz and Li 2013).
#![tactic(auto)]

mod check;
mod laws;
mod least;
mod least_laws;

pub use check::check_two;
pub use laws::{accepted_twos_are_least, shown_twos_are_least};
pub use least::{LeastTwo, least_two};
pub use least_laws::printed_leasts_are_shown;

#[cfg(test)]
mod check_tests;
#[cfg(test)]
mod least_tests;
