//! Recorders of the calls of a store: clients send each entry through the box of its key's shard,
//! and the log of the shard takes it while the clients run.
#![tactic(auto)]

mod collected;
mod letters;
mod log;
mod pass;
mod prepare;
mod recorder;
#[cfg(test)]
mod tests;

pub use collected::collect;
pub use letters::RecordLetter;
pub use log::ShardLog;
pub use pass::RecorderPass;
pub use recorder::Recorder;
