//! The clients of the store: what each of them is to do, and their calls, each against a quorum of
//! the replicas. A read repairs the replicas whose replies were older.
#![tactic(auto)]

mod client;
mod gather;
mod letters;
mod plan;
#[cfg(test)]
mod tests;

pub use client::{Client, ClientEnd};
pub use gather::{freshest, is_stale};
pub use letters::{Note, Route};
pub use plan::plan_of;
