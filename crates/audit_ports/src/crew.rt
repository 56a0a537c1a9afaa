//! Real threads, one for each job.
ghost use Rattle.std.specs.Prelude.{◌≡◌, ◌<◌, length, IfOk};
ghost use Rattle.audit_ports.specs.Crew.{Starts, Joins, fresh_crew};

use crate::calls::Calls;
use crate::{Failed, Job, raise};
use stale_model::{List, Memory};
use std::alloc::Global;
use std::marker::Model;
use std::snapshot::Snapshot;
use std::sync::Wait;
use std::thread;
use std::thread::{Promise, PromisedHandle, Threads};

/// What the end of a job keeps.
#[derive(Drop)]
struct EndOf<J> {
    job: Snapshot<J>,
}

impl<J: Job> Promise<J::Out> for EndOf<J> {
    ghost kept_by = { λ promise end. J.ends promise.job.value end };
}

/// Starts each job in a thread of its own, and joins them in the order in which they were started. Contracts see the
/// jobs that were started and not joined, `begun`, which are the marks of all jobs that were started, the count of
/// refusals, which never falls and stands still at 2^64 - 1, and `last`, the mark of the job that was refused last.
#[derive(Drop)]
pub struct ThreadCrew<J: Job, R> {
    rt: R,
    handles: Vec<PromisedHandle<J::Out, EndOf<J>>>,
    begun: Vec<u32>,
    places: u32,
    starts: Calls,
    count: u64,
    last: Option<u32>,
}

impl<J: Job, R> Model for ThreadCrew<J, R> {
    ghost use Rattle.std.specs.Prelude.{◌≤◌, map, vec_len, vec_capacity};
    ghost use Rattle.audit_ports.specs.Crew.{CrewView};

    ghost Value = { CrewView J };

    ghost view = { λ crew. record {
      jobs = map (λ handle. handle.promise.job.value) crew.handles.items;
      begun = crew.begun.items;
      starts = crew.starts;
      places = crew.places;
      count = crew.count;
      last = crew.last;
    } };

    ghost invariant = { λ crew. (vec_len crew.handles ≤ vec_len crew.begun) ×
        (vec_len crew.begun ≤ crew.places) × (crew.places ≤ vec_capacity crew.handles) ×
        (crew.places ≤ vec_capacity crew.begun) };
}

impl<J: Job + Send + Drop + 'static, R: Threads + Wait + Copy> ThreadCrew<J, R>
where
    J::Out: Send + Drop + 'static,
{
    /// A crew with places for this many jobs, all of whose memory it takes now. Its starts are numbered from 1, and
    /// those whose number is in `fail` are refused.
    pub fn prepare(
        rt: R,
        alloc: Global,
        places: u32,
        fail: List<u32>,
    ) -> Result<ThreadCrew<J, R>, Memory>
        ensures { IfOk result (λ crew. crew ≡ fresh_crew places fail) }
    {
        let handles = Vec::with_capacity(alloc, places as usize).map_err(|_| Memory)?;
        let begun = Vec::with_capacity(alloc, places as usize).map_err(|_| Memory)?;
        Ok(ThreadCrew {
            rt,
            handles,
            begun,
            places,
            starts: Calls::none(fail),
            count: 0,
            last: None,
        })
    }

    /// Starts the job in a thread of its own; its mark is then the last in `begun`. `Failed` where the start is one
    /// that is told to fail, where as many jobs were started as there are places, and where the system makes no
    /// thread: then the job is dropped, the count is raised, and `last` is the job's mark.
    pub fn start(&mut self, job: J) -> Result<(), Failed>
        requires { J.can_run job }
        ensures { Starts job (J.number job) self.old result self.new }
    {
        let mark = job.mark();
        let is_full = self.begun.len() >= self.places as usize;
        let handle = if self.starts.count() || is_full {
            Err(Failed)
        } else {
            begin(&self.rt, job)
        };
        match handle {
            Ok(handle) => {
                let (Ok(()), Ok(())) = (self.handles.push(handle), self.begun.push(mark)) else {
                    unreachable!()
                };
                Ok(())
            }
            Err(Failed) => {
                raise(&mut self.count);
                self.last = Some(mark);
                Err(Failed)
            }
        }
    }

    /// Waits for the end of the first job that was started and not joined, and gives what the job gave.
    pub fn join(&mut self) -> J::Out
        requires { 0 < length self.old.jobs }
        ensures { Joins J.ends self.old result self.new }
    {
        self.handles.remove(0).join(&self.rt)
    }
}

// Starts the job in a thread of its own, or drops it.
fn begin<J: Job + Send + Drop + 'static, R: Threads>(
    rt: &R,
    job: J,
) -> Result<PromisedHandle<J::Out, EndOf<J>>, Failed>
where
    J::Out: Send + Drop + 'static,
    requires { J.can_run job }
    ensures { IfOk result (λ handle. handle.promise.job.value ≡ job) }
{
    let promise = EndOf {
        job: Snapshot::of(&job),
    };
    thread::spawn_with(
        rt,
        promise,
        move || -> J::Out
            requires { J.can_run job }
            ensures { J.ends job result }
        { job.run() },
    )
    .map_err(|_| Failed)
}
