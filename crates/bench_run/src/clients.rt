//! The clients of a run, from what they need to what they leave.
ghost use Rattle.std.specs.Prelude.{◌≡◌, ℕ, ◌<◌, ◌≤◌, length, slice_index_or, vec_len, vec_capacity};
ghost use Rattle.stale_model.specs.Settings.{AreSettings};
ghost use Rattle.stale_model.specs.declared.store.Plan.{Plan};
ghost use Rattle.ticket_clock.specs.Seats.{ClockView};
ghost use Rattle.quorum_client.specs.declared.client.ClientEnd.{ClientEnd};
ghost use Rattle.key_recorder.specs.Recorders.{PassView, LogView, IsTold};
ghost use Rattle.key_recorder.specs.Prepared.{IsPrepared};
ghost use Rattle.bench_run.specs.declared.parts.ClientParts.{ClientParts};
ghost use Rattle.bench_run.specs.declared.runner.Runner.{Runner};
ghost use Rattle.bench_run.specs.Ended.{CanMakeCalls, AreCalled};
ghost use Rattle.bench_run.specs.Closing.{first_runner, end_of, with_settled, IsDrainedLog, CanSettle, IsDoneRunner, AreKept};

use crate::fork::run_beside;
use crate::parts::ClientParts;
use crate::runner::Runner;
use audit_ports::Gate;
use key_recorder::{Recorder, RecorderPass, ShardLog};
use quorum_client::{Client, ClientEnd};
use stale_model::Settings;
use std::sync::Wait;
use std::thread::Threads;
use ticket_clock::Clock;

/// Runs all clients beside the drains of the logs, and settles the logs with the passes of the clients. The lists
/// `runners` and `ends` are empty, with room for as many as there are clients; no memory is taken.
pub(crate) fn run_clients<R: Threads + Wait + Sync, G: Gate>(
    rt: &R,
    gate: &G,
    settings: &Settings,
    clock: &Clock,
    recorder: &Recorder,
    clients: Vec<ClientParts>,
    passes: Vec<RecorderPass>,
    logs: &mut [ShardLog],
    runners: Vec<Runner>,
    ends: Vec<ClientEnd>,
) -> Vec<ClientEnd>
    requires limits { AreSettings settings.now }
    requires clients { vec_len clients ≡ settings.now.clients }
    requires recorder { (plan : Plan) × IsPrepared settings.now plan recorder.now passes.items logs.old
        × ((k : ℕ) (c : ClientParts) → k < settings.now.clients → CanMakeCalls settings.now plan clock.now k (slice_index_or clients.items k c)) }
    requires runners { (vec_len runners ≡ 0) × (settings.now.clients ≤ vec_capacity runners) }
    requires ends { (vec_len ends ≡ 0) × (settings.now.clients ≤ vec_capacity ends) }
    ensures { (plan : Plan) → IsPrepared settings.now plan recorder.now passes.items logs.old
        → ((k : ℕ) (c : ClientParts) → k < settings.now.clients → CanMakeCalls settings.now plan clock.now k (slice_index_or clients.items k c))
        → AreCalled settings.now plan clients.items result.items logs.new }
{
    let mut runners = make_runners(settings, clients, passes, runners);
    run_beside(rt, clock, gate, recorder, &mut runners, logs);
    close_all(rt, runners, logs, ends)
}

// Of each client a runner, with the pass of that client.
fn make_runners(
    settings: &Settings,
    clients: Vec<ClientParts>,
    passes: Vec<RecorderPass>,
    mut runners: Vec<Runner>,
) -> Vec<Runner>
    requires limits { AreSettings settings.now }
    requires clients { vec_len clients ≡ settings.now.clients }
    requires passes { vec_len passes ≡ settings.now.clients }
    requires parts { (plan : Plan) × (clock : ClockView)
        × ((k : ℕ) (c : ClientParts) → k < settings.now.clients → CanMakeCalls settings.now plan clock k (slice_index_or clients.items k c)) }
    requires runners { (vec_len runners ≡ 0) × (settings.now.clients ≤ vec_capacity runners) }
    ensures as_many { vec_len result ≡ settings.now.clients }
    ensures each { (k : ℕ) (r : Runner) (c : ClientParts) (p : PassView) → k < settings.now.clients
        → slice_index_or result.items k r ≡ first_runner settings.now k (slice_index_or clients.items k c) (slice_index_or passes.items k p) }
{
    for (parts, pass) in clients.into_iter().zip(passes) {
        let client = runners.len() as u32;
        runners.push_reserved(make_runner(settings, client, parts, pass));
    }
    runners
}

// A client with none of its calls made, and its pass.
fn make_runner(settings: &Settings, client: u32, parts: ClientParts, pass: RecorderPass) -> Runner
    requires limits { AreSettings settings.now }
    requires client { client < settings.now.clients }
    requires parts { (plan : Plan) × (clock : ClockView) × CanMakeCalls settings.now plan clock client parts }
    ensures { result ≡ first_runner settings.now client parts pass }
{
    let client = Client::new(
        client,
        settings,
        parts.calls,
        parts.routes,
        parts.inbox,
        parts.taker,
        parts.seat,
    );
    Runner { client, pass }
}

// Settles the logs with the passes of all clients, and closes the clients.
fn close_all<R: Wait>(
    rt: &R,
    runners: Vec<Runner>,
    logs: &mut [ShardLog],
    mut ends: Vec<ClientEnd>,
) -> Vec<ClientEnd>
    requires logs { (k : ℕ) (g : LogView) → k < length logs.old → IsDrainedLog k (slice_index_or logs.old k g) }
    requires runners { (j : ℕ) (r : Runner) → j < vec_len runners → IsDoneRunner logs.old (slice_index_or runners.items j r) }
    requires ends { (vec_len ends ≡ 0) × (vec_len runners ≤ vec_capacity ends) }
    ensures as_many { vec_len result ≡ vec_len runners }
    ensures ends { (j : ℕ) (r : Runner) (e : ClientEnd) → j < vec_len runners
        → slice_index_or result.items j e ≡ end_of (slice_index_or runners.items j r).client }
    ensures told { (j k : ℕ) (r : Runner) (g : LogView) → j < vec_len runners → k < length logs.old
        → IsTold (slice_index_or logs.old k g) (slice_index_or runners.items j r).pass }
    ensures logs { AreKept logs.old logs.new }
{
    for runner in runners {
        ends.push_reserved(close_one(rt, runner, logs));
    }
    ends
}

// Settles the logs with the pass of a client, and closes the client.
fn close_one<R: Wait>(rt: &R, runner: Runner, logs: &mut [ShardLog]) -> ClientEnd
    requires logs { (k : ℕ) (g : LogView) → k < length logs.old → IsDrainedLog k (slice_index_or logs.old k g) }
    requires runner { IsDoneRunner logs.old runner }
    ensures end { result ≡ end_of runner.client }
    ensures told { (k : ℕ) (g : LogView) → k < length logs.old → IsTold (slice_index_or logs.old k g) runner.pass }
    ensures logs { AreKept logs.old logs.new }
{
    let Runner { client, mut pass } = runner;
    settle_pass(rt, logs, &mut pass);
    client.close(rt)
}

// Takes back the senders of a pass, each into the log of its shard.
fn settle_pass<R: Wait>(rt: &R, logs: &mut [ShardLog], pass: &mut RecorderPass)
    requires logs { (k : ℕ) (g : LogView) → k < length logs.old → IsDrainedLog k (slice_index_or logs.old k g) }
    requires pass { CanSettle logs.old pass.old }
    ensures told { (k : ℕ) (g : LogView) → k < length logs.old → IsTold (slice_index_or logs.old k g) pass.old }
    ensures as_many { length logs.new ≡ length logs.old }
    ensures logs { (k : ℕ) (g : LogView) → k < length logs.old
        → slice_index_or logs.new k g ≡ with_settled pass.old.client (slice_index_or logs.old k g) }
{
    for log in logs.iter_mut() {
        log.settle(rt, pass);
    }
}
