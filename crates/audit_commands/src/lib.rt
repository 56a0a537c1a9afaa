//! The commands of the auditor, over the traits of the outside.
#![tactic(auto)]

ghost use Rattle.std.specs.Prelude.{◌≡◌, ◌⊎◌, None};
ghost use Rattle.audit_words.specs.Limits.{IsWithin};
ghost use Rattle.audit_words.specs.Tasks.{task_of};
ghost use Rattle.audit_commands.specs.Status.{number};
ghost use Rattle.command_outputs.specs.Lines.{memory_line, SaysLine};
ghost use Rattle.audit_commands.specs.Ends.{outside, KeepsOutside, EndsAs};
ghost use Rattle.audit_commands.specs.Complete.{IsComplete};
ghost use Rattle.audit_commands.specs.Refusals.{TaskEnds};

mod certificate;
mod check;
mod generated;
mod history;
mod input;
mod judge;
mod laws;
mod refusal;
mod status;
mod texts;
mod trace;

use crate::check::check;
use crate::generated::{generate, trial};
use crate::judge::judge;
use crate::refusal::{Refusal, end, end_without_memory, refuse};
use crate::trace::trace;
use audit_ports::{Gate, Shelf, Sink};
use audit_words::{Task, Word, task_of};
pub use laws::written_certificates_are_good;
use stale_model::Memory;
pub use status::Status;
use std::alloc::Global;
use std::thread::Threads;

// Does what a task asks for.
fn perform<R: Threads + Sync, S: Shelf, O: Sink, G: Gate>(
    rt: &R,
    alloc: Global,
    task: &Task,
    shelf: &mut S,
    out: &mut O,
    gate: &G,
) -> Result<Status, Refusal>
    requires within { IsWithin task.now }
    requires writing { (S.shown shelf.old).writing ≡ None }
    ensures { TaskEnds task.now (S.shown shelf.old) (S.shown shelf.new)
        (O.shown out.old) (O.shown out.new) result }
{
    match task {
        Task::Judge { file, measure } => judge(rt, alloc, file, measure, shelf, out, gate),
        Task::Check { file, cert } => check(alloc, file, cert, shelf, out),
        Task::Gen(workload) => generate(alloc, *workload, out),
        Task::Trial { workload, workers } => trial(rt, alloc, *workload, *workers, out, gate),
        Task::Trace {
            history,
            journal,
            settings,
        } => trace(alloc, history, journal, settings, shelf, out),
    }
}

/// Does what the words of a command line ask for, and gives the number of the status to end with.
///
/// - `audit FILE [--cert OUT] [--workers N]`: the history in FILE is judged by N workers (1 to 64, 1 where it is not
///   said), the certificate is written to OUT, and then the report to `out`.
/// - `two FILE`: the least Δ for 2-atomicity of each key of the history in FILE is written to `out`, with what shows it.
/// - `sides FILE`: the least number of ticks by which both ends of the operations have to be moved is written to `out`
///   for each key of the history in FILE, with what shows it.
/// - `live FILE`: the operations of each key of the history in FILE are taken in the order in which they finished, and a
///   line is written to `out` wherever the least Δ of those so far changes.
/// - `check FILE CERT`: the certificate in CERT is checked against the history in FILE, and `good` or the first key that
///   isn't is written to `out`.
/// - `gen SEED OPS KEYS`: the generated history of OPS operations on KEYS keys is written to `out`. It is the same for
///   the same three numbers.
/// - `trial SEED OPS KEYS [--workers N]`: that history is judged, and the last line of the report on it is written to
///   `out`.
/// - `trace HISTORY JOURNAL [options]`: the two files are read as those of a run of the store with the settings of the
///   options, and `good` or the first part of a recorded run that fails is written to `out`.
///
/// Files are read from `shelf`, at most 67,108,864 bytes of a history and 268,435,456 of a certificate or a journal file.
/// The two files of `trace` are read whole before a line of either is looked at. The shelf must not be
/// writing a file. All text is made before the first output: OUT, what it held is lost, and then `out`. In
/// `audit` and `trial` the gate is passed round each judgement. After a refusal one line is written to `err`, which says why.
///
/// # Statuses
/// - 0: done. What was asked for was written and handed on, and nothing else.
/// - 1: `check` and `trace` alone: some verdict of the certificate isn't shown, or the files are no recorded run of the
///   plan, and `out` gained the line on the first verdict or part that fails.
/// - 2: the words are others. Nothing was opened.
/// - 3: FILE is no history; the line names its fault. `trace` never ends with it.
/// - 4: CERT is no certificate of this history; the line names its fault.
/// - 5: there is no such file; the line names it.
/// - 6: a read failed.
/// - 7: a write failed. OUT is as it was, or a part of its text; `out` gained a part of its own, from nothing to all.
/// - 8: the file is longer than its limit; the line names it.
/// - 10: want of memory.
/// - 11: `trace` alone: a line of HISTORY isn't one of its form, or else one of JOURNAL; the line says the file and the
///   number of the first such line, counted from 1.
///
/// `gen` and `trial` end with 0, 2, 7 or 10 alone, and open no file.
///
/// After 2 to 6, 8, 10 and 11 no file has changed, and `out` is as it was. Only the count of the failure that a status
/// names rises, and that of `err`: a failed write to `err` changes no status.
pub fn run_offline<R: Threads + Sync, S: Shelf, O: Sink, E: Sink, G: Gate>(
    rt: &R,
    alloc: Global,
    words: &[Word],
    shelf: &mut S,
    out: &mut O,
    err: &mut E,
    gate: &G,
) -> u8
    requires { (S.shown shelf.old).writing ≡ None }
    ensures ends { EndsAs words.now
        (outside (S.shown shelf.old) (O.shown out.old) (E.shown err.old))
        (outside (S.shown shelf.new) (O.shown out.new) (E.shown err.new)) result }
    ensures words { task_of words.now ≡ None
        → (result ≡ number Status.WordsRefused) ⊎ (result ≡ number Status.OutOfMemory) }
    ensures keeps { KeepsOutside words.now
        (outside (S.shown shelf.old) (O.shown out.old) (E.shown err.old))
        (outside (S.shown shelf.new) (O.shown out.new) (E.shown err.new)) }
    ensures complete { IsComplete words.now
        (outside (S.shown shelf.old) (O.shown out.old) (E.shown err.old))
        (outside (S.shown shelf.new) (O.shown out.new) (E.shown err.new)) result }
{
    let task = match task_of(alloc, words) {
        Ok(Some(task)) => task,
        Ok(None) => return end(err, b"words refused\n", Status::WordsRefused).number(),
        Err(Memory) => return end_without_memory(err).number(),
    };
    match perform(rt, alloc, &task, shelf, out, gate) {
        Ok(status) => status.number(),
        Err(refusal) => refuse(alloc, refusal, err).number(),
    }
}

/// Says on `err` that memory is wanting, and gives the number of that status: for a caller that finds no memory for
/// the words.
pub fn refuse_for_memory<E: Sink>(err: &mut E) -> u8
    ensures status { result ≡ number Status.OutOfMemory }
    ensures says { SaysLine memory_line (E.shown err.old) (E.shown err.new) }
{
    end_without_memory(err).number()
}
