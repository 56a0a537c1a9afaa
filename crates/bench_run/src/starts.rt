//! The replicas start, in order; where one is refused, those before it are ended.
ghost use Rattle.std.specs.Prelude.{◌≡◌, ℕ, ◌+◌, ◌<◌, [], length, map, IfErr, OnOk, All, slice_index_or, vec_len};
ghost use Rattle.quorum_client.specs.Routes.{IsReadyRoute};
ghost use Rattle.bench_run.specs.declared.job.JobParts.{JobParts};
ghost use Rattle.bench_run.specs.Jobs.{CanServe};
ghost use Rattle.bench_run.specs.JobSteps.{view_of, IsFreshJob};
ghost use Rattle.bench_run.specs.Drive.{AreStarted, IsStoppedAt};

use crate::job::{BenchJob, JobParts};
use crate::parts::ClientParts;
use crate::run::Stopped;
use audit_ports::{Job, ThreadCrew};
use quorum_client::{Note, Route};
use std::sync::Wait;
use std::thread::Threads;

/// Starts the replicas in order, up to one that is refused.
pub(crate) fn start_all<R: Threads + Wait + Copy + Send + Sync + 'static>(
    rt: &R,
    crew: &mut ThreadCrew<BenchJob<R>, R>,
    replicas: Vec<JobParts>,
) -> Result<(), Stopped>
    requires none { crew.old.jobs ≡ [] }
    requires fresh { (k : ℕ) (r : JobParts) → k < vec_len replicas → IsFreshJob (slice_index_or replicas.items k r) }
    requires ready { (k : ℕ) (r : JobParts) → k < vec_len replicas → CanServe (view_of (slice_index_or replicas.items k r)) }
    requires numbers { (k : ℕ) (r : JobParts) → k < vec_len replicas → (view_of (slice_index_or replicas.items k r)).replica.number ≡ k }
    ensures ok { OnOk result (AreStarted (map view_of replicas.items) crew.old crew.new) }
    ensures stopped { IfErr result (λ s. IsStoppedAt (map view_of replicas.items) s.replica crew.old crew.new) }
{
    for parts in replicas {
        let job = BenchJob::new(*rt, parts);
        let replica = job.mark();
        match crew.start(job) {
            Ok(()) => {}
            Err(_) => return Err(Stopped { replica }),
        }
    }
    Ok(())
}

/// Tells the replicas that no client sends anything, so that those that were started end, and joins these.
pub(crate) fn stop<R: Threads + Wait + Copy + Send + Sync + 'static>(
    rt: &R,
    crew: &mut ThreadCrew<BenchJob<R>, R>,
    clients: Vec<ClientParts>,
    started: u32,
)
    requires started { length crew.old.jobs ≡ started }
    requires routes { (k : ℕ) (c : ClientParts) → k < vec_len clients → All (IsReadyRoute k 1) (slice_index_or clients.items k c).routes.items }
    ensures { crew.new ≡ record crew.old { jobs = [] } }
{
    say_all_done(rt, clients);
    join_all(crew, started);
}

// Tells the replicas of each client that it is done.
fn say_all_done<R: Wait>(rt: &R, clients: Vec<ClientParts>)
    requires { (k : ℕ) (c : ClientParts) → k < vec_len clients → All (IsReadyRoute k 1) (slice_index_or clients.items k c).routes.items }
{
    for (parts, client) in clients.into_iter().zip(0..u32::MAX) {
        say_done(rt, parts.routes, client);
    }
}

// Tells the replicas that a client is done.
fn say_done<R: Wait>(rt: &R, routes: Vec<Route>, client: u32)
    requires { All (IsReadyRoute client 1) routes.items }
{
    for mut route in routes {
        route.to.send(rt, &mut route.pass, Note::Done { client });
    }
}

// Joins the jobs that were started, and drops their ends.
fn join_all<R: Threads + Wait + Copy + Send + Sync + 'static>(
    crew: &mut ThreadCrew<BenchJob<R>, R>,
    started: u32,
)
    requires { length crew.old.jobs ≡ started }
    ensures { crew.new ≡ record crew.old { jobs = [] } }
{
    for _ in 0..started {
        crew.join();
    }
}
