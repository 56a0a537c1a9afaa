//! A run of the store: its replicas and its clients in threads of their own, and what all of them keep of it.
#![tactic(auto)]

mod boxes;
mod clients;
mod ends;
mod fork;
mod job;
mod members;
mod parts;
mod prepared;
mod routes;
mod run;
#[cfg(test)]
mod run_tests;
mod runner;
mod starts;
#[cfg(test)]
mod tests;

pub use job::{BenchEnd, BenchJob, ReplyRoute};
pub use prepared::{Prepared, prepare};
pub use run::{Run, Stopped, drive};
