//! The score of a key while its operations come in: the least Δ of those that have.
#![tactic(auto)]

pub mod laws;
mod live;
mod places;
mod rows;
#[cfg(test)]
mod tests;

pub use live::{Fed, Live};
