//! The words of a command line, and what they ask for.
#![tactic(auto)]

ghost use Rattle.std.specs.Prelude.{◌≡◌, IfOk, IfSome};
ghost use Rattle.audit_words.specs.Limits.{IsWithin};
ghost use Rattle.audit_words.specs.Tasks.{task_of};

mod bench;
pub mod examples;
mod files;
mod laws;
mod line;
mod modes;
mod number;
mod settings;
mod word;

use crate::line::matches_of;
use crate::modes::task_in;
pub use bench::{Bench, bench_of};
pub use laws::one_task_at_most;
use stale_model::{Bytes, Memory, Settings};
use std::alloc::Global;
pub use word::Word;

/// What history to generate: the same for the same numbers, everywhere.
#[derive(Clone, Copy, Debug, PartialEq, Eq)]
pub struct Workload {
    /// What the words of the generator come from: any number of 64 bits.
    pub seed: u64,
    /// How many operations: 1 to 1,000,000.
    pub ops: u32,
    /// How many keys they choose from: 1 to 100,000.
    pub keys: u32,
}

/// What is said of a history.
#[derive(Drop, Debug)]
pub enum Measure {
    /// How late its reads are, and whether it is 2-atomic.
    Audit {
        /// The file for the certificate, where it is given.
        cert: Option<Bytes>,
        /// How many workers judge: 1 to 64, and 1 where the words do not say.
        workers: u32,
    },
    /// The least Δ, in ticks, at which it is 2-atomic.
    Two,
    /// The least number of ticks by which both ends of its operations have to be moved for it to be atomic.
    Sides,
    /// The least Δ, in ticks, of the operations that have finished, after each of them.
    Live,
}

/// A command with its files and settings. A file's name is not empty, and no two of a command are the same.
#[derive(Drop, Debug)]
pub enum Task {
    /// `audit FILE [--cert OUT] [--workers N]`, `two FILE`, `sides FILE` or `live FILE`: judge the history in FILE by this
    /// measure.
    Judge {
        file: Bytes,
        measure: Measure,
    },
    /// `check FILE CERT`: check the certificate in CERT against the history in FILE.
    Check {
        file: Bytes,
        cert: Bytes,
    },
    /// `gen SEED OPS KEYS`: write a generated history.
    Gen(Workload),
    /// `trial SEED OPS KEYS [--workers N]`: judge a generated history.
    Trial {
        workload: Workload,
        /// How many workers judge: 1 to 64, and 1 where the words do not say.
        workers: u32,
    },
    /// `trace HISTORY JOURNAL [options]`: say whether the two files are those of one run of the store.
    Trace {
        /// The file with the history of the run.
        history: Bytes,
        /// The file with the journals of its replicas.
        journal: Bytes,
        /// What the run had to do.
        settings: Settings,
    },
}

/// What the words of a command line, after the name of the program, ask for; nothing where they are wrong, or ask for
/// a run of the store, which `bench_of` gives.
///
/// Options may stand anywhere, as `--workers 2` or `--workers=2`; the word `--` ends them. An option that comes twice,
/// that is unknown or shortened, that the mode does not take, or whose value begins with `-` after a blank is wrong.
/// A number has 1 to 20 digits and is within its limits: the number of workers, and SEED (at most 2^64 - 1), OPS (1 to
/// 1,000,000) and KEYS (1 to 100,000). `trace` takes the options of `bench_of` but `--workers`, with the same limits and
/// the same numbers where they are not given; `--shards` is read, and says nothing of a run.
///
/// # Errors
/// `Memory` may come at any time. It is never taken for wrong words.
pub fn task_of(alloc: Global, words: &[Word]) -> Result<Option<Task>, Memory>
    ensures task { IfOk result (λ task. task ≡ task_of words.now) }
    ensures within { IfOk result (λ task. IfSome task IsWithin) }
{
    match matches_of(alloc, words)? {
        Some(matches) => task_in(alloc, &matches),
        None => Ok(None),
    }
}

#[cfg(test)]
mod tests;
