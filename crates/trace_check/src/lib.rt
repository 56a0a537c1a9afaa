//! A run of the store, read back from its two files.
#![tactic(auto)]

mod judging;
mod lines;
mod reading;
mod trace;

pub use judging::{Part, recorded};
pub use reading::{TraceFault, trace_of};
pub use trace::Trace;
