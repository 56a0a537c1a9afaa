//! A client beside the pass with which it records its calls.
ghost use Rattle.bench_run.specs.Runs.{IsReadyRunner, IsRun};

use audit_ports::Gate;
use key_recorder::{Recorder, RecorderPass};
use quorum_client::Client;
use std::sync::Wait;
use ticket_clock::Clock;

/// A client, and the pass with which it records its calls.
#[derive(Drop)]
pub(crate) struct Runner {
    pub(crate) client: Client,
    pub(crate) pass: RecorderPass,
}

/// Makes all planned calls of a client that are left. Each entry is recorded as soon as its call is
/// done, and the end after the last.
pub(crate) fn run_one<R: Wait, G: Gate>(
    rt: &R,
    clock: &Clock,
    gate: &G,
    recorder: &Recorder,
    runner: &mut Runner,
)
    requires { IsReadyRunner clock.now recorder.now runner.old }
    ensures { IsRun runner.old runner.new }
{
    while runner.client.left() > 0 {
        let entry = runner.client.call(rt, clock, gate);
        recorder.record(rt, &mut runner.pass, entry);
    }
    recorder.close(rt, &mut runner.pass);
}
