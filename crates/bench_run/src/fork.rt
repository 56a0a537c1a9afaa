//! The clients of a run, in threads of their own, beside those that drain the logs.
ghost use Rattle.std.specs.Prelude.{◌≡◌, ℕ, ◌<◌, length, slice_index_or, All};
ghost use Rattle.std.specs.Thread.{IsSync};
ghost use Rattle.key_recorder.specs.Recorders.{LogView};
ghost use Rattle.bench_run.specs.Runs.{IsReadyRunner, IsRun, IsDrained};

use crate::runner::{Runner, run_one};
use audit_ports::Gate;
use key_recorder::{Recorder, ShardLog};
use std::sync::Wait;
use std::thread;
use std::thread::{Threads, join_mut};
use ticket_clock::Clock;

// No run has more clients than this, so each has a thread of its own where one can be made.
const CLIENT_THREADS: usize = 32;

// No run has more shards than this, so each log has a thread of its own where one can be made.
const LOG_THREADS: usize = 16;

/// Makes all planned calls of the clients, each in a thread of its own where one can be made.
pub(crate) fn run_all<R: Threads + Wait + Sync, G: Gate>(
    rt: &R,
    clock: &Clock,
    gate: &G,
    recorder: &Recorder,
    runners: &mut [Runner],
)
    requires { All (IsReadyRunner clock.now recorder.now) runners.old }
    ensures as_many { length runners.new ≡ length runners.old }
    ensures each { (k : ℕ) (r : Runner) → k < length runners.old
        → IsRun (slice_index_or runners.old k r) (slice_index_or runners.new k r) }
{
    thread::for_each_mut(
        rt,
        runners,
        CLIENT_THREADS,
        &|_client: usize, runner: &mut Runner|
            requires { IsReadyRunner clock.now recorder.now runner.now }
            ensures { IsRun runner.entry.now runner.exit.now }
        { run_one(rt, clock, gate, recorder, runner) },
    );
}

/// Drains the logs, each in a thread of its own where one can be made. It takes no memory.
pub(crate) fn drain_all<R: Threads + Wait + Sync>(rt: &R, logs: &mut [ShardLog])
    ensures as_many { length logs.new ≡ length logs.old }
    ensures each { (k : ℕ) (g : LogView) → k < length logs.old
        → IsDrained (slice_index_or logs.old k g) (slice_index_or logs.new k g) }
{
    thread::for_each_mut(
        rt,
        logs,
        LOG_THREADS,
        &|_shard: usize, log: &mut ShardLog|
            ensures { IsDrained log.entry.now log.exit.now }
        { log.drain(rt) },
    );
}

/// Makes all planned calls of the clients while the logs are drained. It takes no memory, and it has no
/// refusal: where no thread can be had, the clients run one after the other, and then the drains.
pub(crate) fn run_beside<R: Threads + Wait + Sync, G: Gate>(
    rt: &R,
    clock: &Clock,
    gate: &G,
    recorder: &Recorder,
    runners: &mut [Runner],
    logs: &mut [ShardLog],
)
    requires { All (IsReadyRunner clock.now recorder.now) runners.old }
    ensures as_many_runners { length runners.new ≡ length runners.old }
    ensures runners { (k : ℕ) (r : Runner) → k < length runners.old
        → IsRun (slice_index_or runners.old k r) (slice_index_or runners.new k r) }
    ensures as_many_logs { length logs.new ≡ length logs.old }
    ensures logs { (k : ℕ) (g : LogView) → k < length logs.old
        → IsDrained (slice_index_or logs.old k g) (slice_index_or logs.new k g) }
{
    let mut calls = ||
        requires { IsSync R.row × All (IsReadyRunner clock.now recorder.now) runners.now }
        ensures as_many { length runners.exit.now ≡ length runners.entry.now }
        ensures each { (k : ℕ) (r : Runner) → k < length runners.entry.now
            → IsRun (slice_index_or runners.entry.now k r) (slice_index_or runners.exit.now k r) }
    { run_all(rt, clock, gate, recorder, runners) };
    let mut drains = ||
        requires { IsSync R.row }
        ensures as_many { length logs.exit.now ≡ length logs.entry.now }
        ensures each { (k : ℕ) (g : LogView) → k < length logs.entry.now
            → IsDrained (slice_index_or logs.entry.now k g) (slice_index_or logs.exit.now k g) }
    { drain_all(rt, logs) };
    // Where no thread can be had, `join_mut` calls the first closure after the second. A drain waits
    // for the ends of all clients, and a client for no drain: the boxes have room for all entries.
    join_mut(rt, &mut drains, &mut calls);
}
