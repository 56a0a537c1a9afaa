//! A small run: that it finds its memory, that its clients run side by side, and that a refused start stops it.
ghost use Rattle.std.specs.Prelude.{◌≡◌, [], IfOk};

use crate::{BenchJob, Run, Stopped, drive, prepare};
use audit_ports::{Gate, ThreadCrew};
use key_recorder::collect;
use stale_model::{List, Memory, Settings};
use std::alloc::Global;
use std::sync::Wait;
use std::sync::atomic::{AtomicU64, Ordering};
use std::test::Fail;
use std::thread;
use std::thread::Threads;

// Two clients with two calls each, and three replicas.
const SETTINGS: Settings = Settings {
    clients: 2,
    replicas: 3,
    calls: 2,
    keys: 4,
    read_quorum: 2,
    write_quorum: 2,
    writes: 50,
    seed: 7,
    shards: 2,
};

// Counts the calls that enter, and holds the first of client 0 until the first of client 1 has entered, for so many turns
// at most.
#[derive(Drop)]
struct Meeting {
    turns: u64,
    entered: AtomicU64,
    second_entered: AtomicU64,
    met: AtomicU64,
}

impl Meeting {
    // A meeting that nothing has entered.
    fn new() -> Meeting {
        Meeting {
            turns: 10_000_000,
            entered: AtomicU64::new(0),
            second_entered: AtomicU64::new(0),
            met: AtomicU64::new(0),
        }
    }
}

impl Gate for Meeting {
    fn enter(&self, piece: u32) {
        self.entered.fetch_add(1, Ordering::SeqCst);
        if piece == SETTINGS.calls + 1 {
            self.second_entered.store(1, Ordering::SeqCst);
        }
        if piece == 1 {
            for _turn in 0..self.turns {
                if self.second_entered.load(Ordering::SeqCst) == 1 {
                    self.met.store(1, Ordering::SeqCst);
                    return;
                }
                thread::yield_now();
            }
        }
    }

    fn leave(&self, _piece: u32) {}
}

// A crew with a place for each replica, of whose starts these are refused.
fn crew_of<R: Threads + Wait + Copy + Send + Sync + 'static>(
    rt: R,
    alloc: Global,
    fail: List<u32>,
) -> Result<ThreadCrew<BenchJob<R>, R>, Memory>
    ensures { IfOk result (λ crew. crew.jobs ≡ []) }
{
    ThreadCrew::prepare(rt, alloc, SETTINGS.replicas, fail)
}

// A run of these settings, where these starts are refused.
fn run_of<R: Threads + Wait + Copy + Send + Sync + 'static>(
    rt: R,
    alloc: Global,
    fail: List<u32>,
    gate: &Meeting,
) -> Result<Result<Run, Stopped>, Memory> {
    let prepared = prepare(&rt, alloc, &SETTINGS)?;
    let mut crew = crew_of(rt, alloc, fail)?;
    Ok(drive(&rt, prepared, &mut crew, gate))
}

#[test]
fn a_small_run_is_prepared(rt: HostRuntime) -> Result<(), Fail> {
    let Ok(prepared) = prepare(&rt, rt.alloc(), &SETTINGS) else {
        panic!(rt; "memory")
    };
    assert_eq!(rt; prepared.tickets(), 32);
    Ok(())
}

#[test]
fn clients_run_side_by_side(rt: HostRuntime) -> Result<(), Fail> {
    let gate = Meeting::new();
    let none = List::from_vec(Vec::new(rt.alloc()));
    let Ok(Ok(run)) = run_of(rt, rt.alloc(), none, &gate) else {
        panic!(rt; "memory, or a replica was refused")
    };
    assert!(rt;
        gate.met.load(Ordering::SeqCst) == 1,
        "the first call of client 1 was entered meanwhile"
    );
    assert_eq!(rt; gate.entered.load(Ordering::SeqCst), 4);
    let Ok(entries) = collect(rt.alloc(), run.logs.into_vec()) else {
        panic!(rt; "memory")
    };
    assert_eq!(rt; entries.as_slice().len(), 4);
    assert_eq!(rt; run.journals.as_slice().len(), 3);
    Ok(())
}

#[test]
fn refused_replicas_stop_a_run(rt: HostRuntime) -> Result<(), Fail> {
    for replica in 0..SETTINGS.replicas {
        let gate = Meeting::new();
        let Ok(fail) = Vec::from_array(rt.alloc(), [replica + 1]) else {
            panic!(rt; "memory")
        };
        let Ok(Err(stopped)) = run_of(rt, rt.alloc(), List::from_vec(fail), &gate) else {
            panic!(rt; "memory, or replica {replica} was started")
        };
        assert_eq!(rt; stopped, Stopped { replica });
        assert_eq!(rt; gate.entered.load(Ordering::SeqCst), 0);
    }
    Ok(())
}
