//! The two files of a run, read back and judged.

ghost use Rattle.std.specs.Prelude.{◌≡◌, IfOk, IfErr, None};
ghost use Rattle.std.specs.String.{string_bytes};
ghost use Rattle.stale_model.specs.Settings.{AreSettings};
ghost use Rattle.audit_words.specs.declared.Task.{Task};
ghost use Rattle.audit_commands.specs.Lines.{part_line};
ghost use Rattle.audit_commands.specs.Steps.{OnlyReads, FindsRun, IsTraceIn, status_of_part};
ghost use Rattle.audit_commands.specs.Refusals.{Shows, TaskEnds, TraceReadsAs};

use crate::history::HISTORY_LIMIT;
use crate::input::take_input;
use crate::refusal::Refusal;
use crate::status::Status;
use audit_ports::{Shelf, Sink};
use command_outputs::print;
use stale_model::{Bytes, Settings};
use std::alloc::{AllocError, Global};
use std::mem::forget;
use trace_check::{Part, Trace, TraceFault, recorded, trace_of};

/// The greatest length of a journal file that is read, in bytes.
const JOURNAL_LIMIT: usize = 268_435_456;

// The trace that was read, or the refusal that its fault is.
fn trace_read(read: Result<Trace, TraceFault>) -> Result<Trace, Refusal>
    ensures { TraceReadsAs read result }
{
    Ok(read?)
}

// The trace in the two files of these names. Both are taken before a line of either is looked at.
fn trace_in<S: Shelf>(
    alloc: Global,
    history: &Bytes,
    journal: &Bytes,
    settings: &Settings,
    shelf: &mut S,
) -> Result<Trace, Refusal>
    ensures keeps { OnlyReads (S.shown shelf.old) (S.shown shelf.new) }
    ensures ok { IfOk result (IsTraceIn history.now journal.now settings.now
        (S.shown shelf.old) (S.shown shelf.new)) }
    ensures err { IfErr result
        (Shows (Task.Trace history.now journal.now settings.now) (S.shown shelf.old) (S.shown shelf.new)) }
{
    let calls = take_input(alloc, shelf, history.as_slice(), HISTORY_LIMIT)?;
    let lines = take_input(alloc, shelf, journal.as_slice(), JOURNAL_LIMIT)?;
    trace_read(trace_of(alloc, settings, &calls, &lines))
}

// What is found of the trace in the two files.
fn found_in<S: Shelf>(
    alloc: Global,
    history: &Bytes,
    journal: &Bytes,
    settings: &Settings,
    shelf: &mut S,
) -> Result<Part, Refusal>
    requires { AreSettings settings.now }
    ensures keeps { OnlyReads (S.shown shelf.old) (S.shown shelf.new) }
    ensures ok { IfOk result (FindsRun history.now journal.now settings.now
        (S.shown shelf.old) (S.shown shelf.new)) }
    ensures err { IfErr result
        (Shows (Task.Trace history.now journal.now settings.now) (S.shown shelf.old) (S.shown shelf.new)) }
{
    let trace = trace_in(alloc, history, journal, settings, shelf)?;
    let found = recorded(alloc, settings, &trace);
    // The process ends here, so nothing is taken apart.
    forget(trace);
    Ok(found?)
}

// The line on what was found.
fn part_line(alloc: Global, found: Part) -> Result<String, AllocError>
    ensures { IfOk result (λ line. string_bytes line ≡ part_line found) }
{
    match found {
        Part::Good => String::from_str(alloc, "good\n"),
        Part::Bad { part } => {
            let mut line = String::new(alloc);
            write!(line, "bad trace part {part}\n")?;
            Ok(line)
        }
    }
}

// The status of what was found.
fn status_of(found: Part) -> Status
    ensures { result ≡ status_of_part found }
{
    match found {
        Part::Good => Status::Done,
        Part::Bad { .. } => Status::NotShown,
    }
}

/// Says whether the two files are a recorded run of the plan of these settings, by a line.
pub(crate) fn trace<S: Shelf, O: Sink>(
    alloc: Global,
    history: &Bytes,
    journal: &Bytes,
    settings: &Settings,
    shelf: &mut S,
    out: &mut O,
) -> Result<Status, Refusal>
    requires settings { AreSettings settings.now }
    requires writing { (S.shown shelf.old).writing ≡ None }
    ensures { TaskEnds (Task.Trace history.now journal.now settings.now)
        (S.shown shelf.old) (S.shown shelf.new) (O.shown out.old) (O.shown out.new) result }
{
    let found = found_in(alloc, history, journal, settings, shelf)?;
    let line = part_line(alloc, found)?;
    print(out, line.as_bytes())?;
    Ok(status_of(found))
}
