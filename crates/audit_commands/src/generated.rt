//! Generated histories: their text, and what is said of it.

ghost use Rattle.std.specs.Prelude.{◌≡◌, IfOk, Ok, None};
ghost use Rattle.stale_model.specs.Valid.{IsValidHistory};
ghost use Rattle.history_csv.specs.Reading.{read_of};
ghost use Rattle.audit_ports.specs.Shelf.{Shown};
ghost use Rattle.audit_words.specs.Limits.{AreWorkers, IsWorkload};
ghost use Rattle.audit_words.specs.declared.Task.{Task};
ghost use Rattle.audit_commands.specs.Generated.{generated_text};
ghost use Rattle.audit_commands.specs.Refusals.{TaskEnds};

use crate::refusal::Refusal;
use crate::status::Status;
use audit_ports::{Gate, Sink};
use audit_words::Workload;
use audit_workers::judge_all;
use command_outputs::print;
use history_csv::{HistoryFault, read_history, write_history};
use history_gen::gen_history;
use stale_model::{Bytes, History, Memory};
use staleness_report::totals;
use std::alloc::Global;
use std::mem::forget;
use std::thread::Threads;

// The text of the generated history.
fn generated_text(alloc: Global, workload: Workload) -> Result<Bytes, Memory>
    requires { IsWorkload workload }
    ensures { IfOk result (λ text. text ≡ generated_text workload) }
{
    let lines = gen_history(alloc, workload.seed, workload.ops, workload.keys)?;
    write_history(alloc, lines.as_slice())
}

// The generated history, which its text reads as.
fn generated_history(alloc: Global, workload: Workload) -> Result<History, Memory>
    requires { IsWorkload workload }
    ensures valid { IfOk result IsValidHistory }
    ensures reads { IfOk result (λ history. read_of (generated_text workload) ≡ Ok history) }
{
    let text = generated_text(alloc, workload)?;
    match read_history(alloc, text.as_slice()) {
        Ok(history) => Ok(history),
        Err(fault) => match fault {
            HistoryFault::Memory => Err(Memory),
            _ => unreachable!(),
        },
    }
}

/// Writes the generated history.
pub(crate) fn generate<O: Sink>(
    alloc: Global,
    workload: Workload,
    out: &mut O,
) -> Result<Status, Refusal>
    requires { IsWorkload workload }
    ensures { (shelf : Shown) → shelf.writing ≡ None
        → TaskEnds (Task.Gen workload) shelf shelf (O.shown out.old) (O.shown out.new) result }
{
    let text = generated_text(alloc, workload)?;
    print(out, text.as_slice())?;
    Ok(Status::Done)
}

/// Judges the generated history by so many workers, and writes the last line of the report on it.
pub(crate) fn trial<R: Threads + Sync, O: Sink, G: Gate>(
    rt: &R,
    alloc: Global,
    workload: Workload,
    workers: u32,
    out: &mut O,
    gate: &G,
) -> Result<Status, Refusal>
    requires workload { IsWorkload workload }
    requires workers { AreWorkers workers }
    ensures { (shelf : Shown) → shelf.writing ≡ None
        → TaskEnds (Task.Trial workload workers) shelf shelf
        (O.shown out.old) (O.shown out.new) result }
{
    let history = generated_history(alloc, workload)?;
    let verdicts = judge_all(rt, alloc, &history, workers, gate)?;
    let line = totals(alloc, &history, verdicts.as_slice())?;
    // The process ends after the line, so nothing is taken apart.
    forget(history);
    forget(verdicts);
    print(out, line.as_slice())?;
    Ok(Status::Done)
}
