//! Many runs of the store, and the largest: each ends, no key of its history has a fault, and its two files are read back
//! as a run.

use crate::runs::{BenchRow, call};
use crate::trace_rows::demand_trace;
use audit_ports::OpenGate;
use std::alloc::AllocError;
use std::process::Abort;
use std::sync::Wait;
use std::test::Fail;
use std::thread::Threads;

// Runs the store with these options, and demands that the last line of the report counts no key with a fault, and that
// the two files are a run.
fn run_without_faults<R: Threads + Wait + Copy + Send + Sync + Abort + AllocGlobal + 'static>(
    rt: &R,
    options: &str,
) -> Result<(), AllocError> {
    let words = format!(in rt.alloc(); "bench h j {options}")?;
    let (answer, shelf) = call(rt, &BenchRow::of("a run", &words), &OpenGate)?;
    assert!(rt; answer.status == 0, "{options}");
    let Ok(report) = str::from_utf8(answer.out.written()) else {
        panic!(rt; "no text")
    };
    let Some(total) = report.lines().last() else {
        panic!(rt; "no line")
    };
    assert!(rt;
        total.contains(" duplicate 0 unmatched 0 infinite 0 "),
        "{options}: {total}"
    );
    demand_trace(rt, &shelf, options, "good\n")
}

#[test]
fn a_hundred_runs_have_no_fault(rt: HostRuntime) -> Result<(), Fail> {
    for seed in 1..=100u32 {
        let quorum = seed % 5 + 1;
        let options = format!(in rt.alloc();
            "--clients 8 --replicas 5 --calls 20 --keys 3 --shards 4 --read-quorum {quorum} --write-quorum {quorum} --seed {seed}"
        )?;
        run_without_faults(&rt, &options)?;
    }
    Ok(())
}

#[test]
fn the_largest_run_ends(rt: HostRuntime) -> Result<(), Fail> {
    run_without_faults(&rt, "--clients 32 --replicas 7 --calls 3125 --shards 16")?;
    Ok(())
}
