//! A run, from the start of its replicas to what all keep of it.
ghost use Rattle.std.specs.Prelude.{◌≡◌, ℕ, ◌<◌, ◌≤◌, [], length, IfOk, IfErr, OnOk, slice_index_or, vec_len, vec_capacity};
ghost use Rattle.bench_run.specs.declared.job.BenchEnd.{BenchEnd};
ghost use Rattle.bench_run.specs.Jobs.{JobView, IsServedOut};
ghost use Rattle.bench_run.specs.Drive.{AreBegun, IsRefusedAt, IsRecordedOut};

use crate::clients::run_clients;
use crate::ends::take_in;
use crate::job::{BenchEnd, BenchJob};
use crate::prepared::Prepared;
use crate::starts::{start_all, stop};
use audit_ports::{Gate, ThreadCrew};
use key_recorder::ShardLog;
use stale_model::{JournalEntry, List};
use std::sync::Wait;
use std::thread::Threads;
use ticket_clock::Seat;

/// What is left of a run.
#[derive(Drop)]
pub struct Run {
    /// The logs of the shards, which together have the entries of all calls.
    pub logs: List<ShardLog>,
    /// The journals of the replicas, in order.
    pub journals: List<List<JournalEntry>>,
    /// The seat, with all tickets that were drawn.
    pub seat: Seat,
}

/// The crew refused to start this replica, and no client made a call.
#[derive(Clone, Copy, Debug, PartialEq, Eq)]
pub struct Stopped {
    /// The number of the replica, counted from 0.
    pub replica: u32,
}

/// Starts the replicas, in order, and runs the clients beside the drains of the logs, each in a thread of its own where
/// one can be made. What is left of it is one recorded run. It takes no memory, and joins all jobs that it started.
///
/// # Errors
/// The crew refused to start a replica; those before it were ended.
pub fn drive<R: Threads + Wait + Copy + Send + Sync + 'static, G: Gate>(
    rt: &R,
    prepared: Prepared,
    crew: &mut ThreadCrew<BenchJob<R>, R>,
    gate: &G,
) -> Result<Run, Stopped>
    requires none { crew.old.jobs ≡ [] }
    ensures joined { crew.new.jobs ≡ [] }
    ensures recorded { IfOk result (IsRecordedOut prepared) }
    ensures begun { OnOk result (AreBegun prepared.settings.replicas crew.old crew.new) }
    ensures stopped { IfErr result (λ s. IsRefusedAt prepared.settings.replicas s.replica crew.old crew.new) }
{
    let Prepared {
        settings,
        clock,
        mut seat,
        mut boxes,
        mut inboxes,
        replicas,
        clients,
        recorder,
        passes,
        mut logs,
        runners,
        client_ends: called,
        ends: served,
        mut journals,
    } = prepared;
    if let Err(stopped) = start_all(rt, crew, replicas) {
        stop(rt, crew, clients, stopped.replica);
        return Err(stopped);
    }
    let called = run_clients(
        rt, gate, &settings, &clock, &recorder, clients, passes, &mut logs, runners, called,
    );
    let served = join_all(crew, served, settings.replicas);
    take_in(
        rt,
        &clock,
        &mut seat,
        &mut inboxes,
        &mut boxes,
        &mut journals,
        called,
        served,
    );
    clock.look(&mut seat);
    Ok(Run {
        logs: List::from_vec(logs),
        journals: List::from_vec(journals),
        seat,
    })
}

// Joins all jobs, in order. The list of their ends has room for as many.
fn join_all<R: Threads + Wait + Copy + Send + Sync + 'static>(
    crew: &mut ThreadCrew<BenchJob<R>, R>,
    mut ends: Vec<BenchEnd>,
    replicas: u32,
) -> Vec<BenchEnd>
    requires jobs { length crew.old.jobs ≡ replicas }
    requires none { vec_len ends ≡ 0 }
    requires room { replicas ≤ vec_capacity ends }
    ensures crew { crew.new ≡ record crew.old { jobs = [] } }
    ensures as_many { vec_len result ≡ replicas }
    ensures each { (k : ℕ) (j : JobView) (e : BenchEnd) → k < replicas → IsServedOut (slice_index_or crew.old.jobs k j) (slice_index_or result.items k e) }
{
    for _replica in 0..replicas {
        ends.push_reserved(crew.join());
    }
    ends
}
