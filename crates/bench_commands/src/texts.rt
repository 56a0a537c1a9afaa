//! The texts of a bench: its two files, and the report on the first.

ghost use Rattle.std.specs.Prelude.{◌≡◌, ◌≤◌, Ok, IfOk, All};
ghost use Rattle.stale_model.specs.Valid.{IsValidHistory};
ghost use Rattle.history_csv.specs.Reading.{read_of};
ghost use Rattle.audit_words.specs.Limits.{AreWorkers};
ghost use Rattle.stale_model.specs.Texts.{recorded_text};
ghost use Rattle.bench_commands.specs.Steps.{IsHistoryText, IsReportOn, AreTexts};

use crate::recording::Recording;
use audit_ports::OpenGate;
use audit_workers::judge_all;
use history_csv::{HistoryFault, read_history, write_journal, write_recorded};
use stale_model::{Bytes, History, Memory};
use staleness_report::report;
use std::alloc::Global;
use std::mem::forget;
use std::thread::Threads;

/// What a bench writes.
#[derive(Drop)]
pub(crate) struct Texts {
    /// The history of the calls.
    pub(crate) history: Bytes,
    /// The journals of the replicas.
    pub(crate) journal: Bytes,
    /// The report on the history.
    pub(crate) report: Bytes,
}

// The history that this text reads as.
fn history_in(alloc: Global, text: &[u8]) -> Result<History, Memory>
    requires { IsHistoryText text.now }
    ensures valid { IfOk result IsValidHistory }
    ensures reads { IfOk result (λ history. read_of text.now ≡ Ok history) }
{
    match read_history(alloc, text) {
        Ok(history) => Ok(history),
        Err(fault) => match fault {
            HistoryFault::Memory => Err(Memory),
            _ => unreachable!(),
        },
    }
}

// The report on the history that this text reads as, judged by so many workers.
fn report_on<R: Threads + Sync>(
    rt: &R,
    alloc: Global,
    text: &[u8],
    workers: u32,
) -> Result<Bytes, Memory>
    requires reads { IsHistoryText text.now }
    requires workers { AreWorkers workers }
    ensures { IfOk result (IsReportOn text.now) }
{
    let history = history_in(alloc, text)?;
    let verdicts = judge_all(rt, alloc, &history, workers, &OpenGate)?;
    let text = report(alloc, &history, verdicts.as_slice());
    // The process ends after the report, so nothing is taken apart.
    forget(history);
    forget(verdicts);
    text
}

/// All texts of a run, with the report of so many workers.
pub(crate) fn texts_of<R: Threads + Sync>(
    rt: &R,
    alloc: Global,
    recording: &Recording,
    workers: u32,
) -> Result<Texts, Memory>
    requires few { All (λ e. e.took_count ≤ 7) recording.now.entries }
    requires reads { IsHistoryText (recorded_text recording.now.entries) }
    requires workers { AreWorkers workers }
    ensures { IfOk result (AreTexts recording.now) }
{
    let history = write_recorded(alloc, recording.entries.as_slice())?;
    let journal = write_journal(alloc, recording.journals.as_slice())?;
    let report = report_on(rt, alloc, history.as_slice(), workers)?;
    Ok(Texts {
        history,
        journal,
        report,
    })
}
