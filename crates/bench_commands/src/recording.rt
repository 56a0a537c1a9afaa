//! The run of a bench: the calls of its clients, and the journals of its replicas.

ghost use Rattle.std.specs.Prelude.{◌≡◌, [], IfOk, IfErr};
ghost use Rattle.stale_model.specs.Settings.{AreSettings};
ghost use Rattle.bench_commands.specs.Made.{IsRunOf};
ghost use Rattle.bench_commands.specs.Steps.{IsUnrecorded};

use crate::refusal::BenchRefusal;
use audit_ports::{Gate, ThreadCrew};
use bench_run::{BenchJob, Run, drive, prepare};
use key_recorder::collect;
use stale_model::{Entry, JournalEntry, List, Settings};
use std::alloc::Global;
use std::sync::Wait;
use std::thread::Threads;

/// What a run leaves.
#[derive(Drop)]
pub(crate) struct Recording {
    /// The calls, by rising start.
    pub(crate) entries: List<Entry>,
    /// The journals of the replicas, in order.
    pub(crate) journals: List<List<JournalEntry>>,
}

/// Makes a run of these settings.
pub(crate) fn record<R: Threads + Wait + Copy + Send + Sync + 'static, G: Gate>(
    rt: &R,
    alloc: Global,
    settings: &Settings,
    crew: &mut ThreadCrew<BenchJob<R>, R>,
    gate: &G,
) -> Result<Recording, BenchRefusal>
    requires settings { AreSettings settings.now }
    requires none { crew.old.jobs ≡ [] }
    ensures joined { crew.new.jobs ≡ [] }
    ensures run { IfOk result (λ r. IsRunOf settings.now r.entries r.journals crew.old crew.new) }
    ensures refused { IfErr result (IsUnrecorded settings.now crew.old crew.new) }
{
    let prepared = prepare(rt, alloc, settings)?;
    let Run { logs, journals, .. } = drive(rt, prepared, crew, gate)?;
    let entries = collect(alloc, logs.into_vec())?;
    Ok(Recording { entries, journals })
}
