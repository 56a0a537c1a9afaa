//! A run of the store, and what the words ask of it.

ghost use Rattle.std.specs.Prelude.{◌≡◌, IfOk, IfSome};
ghost use Rattle.clap.specs.Words.{found_of, rows_of};
ghost use Rattle.audit_words.specs.Benches.{bench_in, bench_of};
ghost use Rattle.audit_words.specs.Limits.{IsBench};

use crate::Word;
use crate::files::are_two_names;
use crate::line::{bench_options, gives_only, matches_of, value_in, values_in};
use crate::number::workers_of;
use crate::settings::settings_of;
use clap::ArgMatches;
use stale_model::{Bytes, Memory, Settings};
use std::alloc::Global;

/// `bench HISTORY JOURNAL [options]`: make a run of the store, write its history and its journals, and judge the
/// history. No file's name is empty, and the two differ.
#[derive(Drop, Debug)]
pub struct Bench {
    /// The file for the history of the run.
    pub history: Bytes,
    /// The file for the journals of its replicas.
    pub journal: Bytes,
    /// What the run does.
    pub settings: Settings,
    /// How many workers judge the history: 1 to 64, and 1 where the words do not say.
    pub workers: u32,
}

// What the matches ask for, where their mode is `bench`.
fn bench_in(alloc: Global, matches: &ArgMatches) -> Result<Option<Bench>, Memory>
    ensures { IfOk result (λ bench. bench ≡ bench_in (rows_of (found_of matches.now))) }
{
    let Some("bench") = value_in(matches, "mode") else {
        return Ok(None);
    };
    if !gives_only(matches, &bench_options()) {
        return Ok(None);
    }
    let Some([history, journal]) = values_in(matches, "args") else {
        return Ok(None);
    };
    let Some(settings) = settings_of(matches) else {
        return Ok(None);
    };
    let Some(workers) = workers_of(value_in(matches, "workers")) else {
        return Ok(None);
    };
    if !are_two_names(history, journal) {
        return Ok(None);
    }
    let history = Bytes::of(alloc, history.as_bytes())?;
    let journal = Bytes::of(alloc, journal.as_bytes())?;
    Ok(Some(Bench {
        history,
        journal,
        settings,
        workers,
    }))
}

/// What the words of a command line, after the name of the program, ask of a run of the store; nothing where they are
/// wrong, or their mode is another.
///
/// They are read as `task_of` reads its words. The options that `bench` takes, with their limits and what stands
/// where they are not given: `--clients` (1 to 32; 2), `--calls` of each client (at least 1, and all clients together at
/// most 100,000; 100), `--replicas` (1 to 7; 3), `--keys` (1 to 1,000; 4), `--read-quorum` and `--write-quorum` (1 to
/// the number of replicas; 1), `--writes` of a hundred calls (0 to 100; 50), `--seed` (at most 2^64 - 1; 1),
/// `--shards` (1 to 16; 1) and `--workers` (1 to 64; 1).
///
/// # Errors
/// `Memory` may come at any time. It is never taken for wrong words.
pub fn bench_of(alloc: Global, words: &[Word]) -> Result<Option<Bench>, Memory>
    ensures bench { IfOk result (λ bench. bench ≡ bench_of words.now) }
    ensures within { IfOk result (λ bench. IfSome bench IsBench) }
{
    match matches_of(alloc, words)? {
        Some(matches) => bench_in(alloc, &matches),
        None => Ok(None),
    }
}
