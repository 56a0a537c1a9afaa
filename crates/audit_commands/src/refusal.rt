//! Why a command is refused, with the line and the status of each refusal.

ghost use Rattle.std.specs.Prelude.{◌≡◌, ◌++◌, Some, IfOk, OnErr, codes};
ghost use Rattle.std.specs.String.{string_bytes};
ghost use Rattle.history_csv.specs.Header.{IsColumn};
ghost use Rattle.std.specs.Prelude.{◌≢◌};
ghost use Rattle.history_csv.specs.declared.HistoryFault.{HistoryFault};
ghost use Rattle.cert_text.specs.declared.CertFault.{CertFault};
ghost use Rattle.trace_check.specs.declared.reading.TraceFault.{TraceFault};
ghost use Rattle.command_outputs.specs.Lines.{memory_line};
ghost use Rattle.audit_commands.specs.Lines.{record_line, fault_line, cert_line, cert_fault_line, trace_line, trace_fault_line};
ghost use Rattle.audit_commands.specs.Refusals.{HasLine, CanBeSaid, Says, Answers};
ghost use Rattle.audit_commands.specs.Status.{number};
ghost use Rattle.staleness_report.specs.Escaped.{escaped};

use crate::status::Status;
use audit_ports::{Failed, Sink};
use cert_text::CertFault;
use command_outputs::say;
use history_csv::{HistoryFault, column_name};
use stale_model::{Bytes, Memory};
use staleness_report::escape;
use std::alloc::{AllocError, Global};
use trace_check::TraceFault;

/// Why a command was refused.
#[derive(Drop, Debug)]
pub(crate) enum Refusal {
    /// The history has this fault, which is no want of memory.
    History(HistoryFault),
    /// The certificate has this fault, which is no want of memory.
    Cert(CertFault),
    /// The two files of a run have this fault, which is no want of memory.
    Trace(TraceFault),
    /// There is no such file. This is the line that says so.
    Missing(Bytes),
    ReadFailed,
    WriteFailed,
    /// The file is longer than the limit. This is the line that says so.
    TooLong(Bytes),
    Memory,
}

impl From<HistoryFault> for Refusal {
    ghost use Rattle.std.specs.Prelude.{◌≡◌};
    ghost use Rattle.audit_commands.specs.Refusals.{refusal_of};

    ghost from_gives = { λ fault refusal. refusal ≡ refusal_of fault };

    fn from(fault: HistoryFault) -> Refusal {
        match fault {
            HistoryFault::Memory => Refusal::Memory,
            fault => Refusal::History(fault),
        }
    }
}

impl From<CertFault> for Refusal {
    ghost use Rattle.std.specs.Prelude.{◌≡◌};
    ghost use Rattle.audit_commands.specs.Refusals.{cert_refusal_of};

    ghost from_gives = { λ fault refusal. refusal ≡ cert_refusal_of fault };

    fn from(fault: CertFault) -> Refusal {
        match fault {
            CertFault::Memory => Refusal::Memory,
            fault => Refusal::Cert(fault),
        }
    }
}

impl From<TraceFault> for Refusal {
    ghost use Rattle.std.specs.Prelude.{◌≡◌};
    ghost use Rattle.audit_commands.specs.Refusals.{trace_refusal_of};

    ghost from_gives = { λ fault refusal. refusal ≡ trace_refusal_of fault };

    fn from(fault: TraceFault) -> Refusal {
        match fault {
            TraceFault::Memory => Refusal::Memory,
            fault => Refusal::Trace(fault),
        }
    }
}

impl From<Failed> for Refusal {
    ghost use Rattle.std.specs.Prelude.{◌≡◌};
    ghost use Rattle.audit_commands.specs.declared.refusal.Refusal.{Refusal};

    ghost from_gives = { λ _ refusal. refusal ≡ Refusal.WriteFailed };

    // Where reading fails, the input says so: what is converted comes from writing.
    fn from(_failed: Failed) -> Refusal {
        Refusal::WriteFailed
    }
}

impl From<AllocError> for Refusal {
    ghost use Rattle.std.specs.Prelude.{◌≡◌};
    ghost use Rattle.audit_commands.specs.declared.refusal.Refusal.{Refusal};

    ghost from_gives = { λ _ refusal. refusal ≡ Refusal.Memory };

    fn from(_error: AllocError) -> Refusal {
        Refusal::Memory
    }
}

impl From<Memory> for Refusal {
    ghost use Rattle.std.specs.Prelude.{◌≡◌};
    ghost use Rattle.audit_commands.specs.declared.refusal.Refusal.{Refusal};

    ghost from_gives = { λ _ refusal. refusal ≡ Refusal.Memory };

    fn from(_memory: Memory) -> Refusal {
        Refusal::Memory
    }
}

// The line on a record at fault.
fn record_line(alloc: Global, rec: u32, word: &str) -> Result<String, AllocError>
    ensures { IfOk result (λ line. string_bytes line ≡ record_line rec word.now) }
{
    let mut line = String::from_str(alloc, "history record ")?;
    write!(line, "{rec}")?;
    line.push_str(": ")?;
    line.push_str(word)?;
    line.push_str("\n")?;
    Ok(line)
}

// The line on a column at fault.
fn column_line(alloc: Global, number: u8) -> Result<String, AllocError>
    requires { IsColumn number }
    ensures { IfOk result (λ line.
        Some (string_bytes line) ≡ fault_line (HistoryFault.Column number)) }
{
    let mut line = String::from_str(alloc, "history: column ")?;
    line.push_str(column_name(number))?;
    line.push_str("\n")?;
    Ok(line)
}

// The line on a fault of a history.
fn fault_line(alloc: Global, fault: HistoryFault) -> Result<String, AllocError>
    requires { HasLine fault }
    ensures { IfOk result (λ line. fault_line fault ≡ Some (string_bytes line)) }
{
    match fault {
        HistoryFault::NoHeader => String::from_str(alloc, "history: no header\n"),
        HistoryFault::Column { name } => column_line(alloc, name),
        HistoryFault::Fields { rec } => record_line(alloc, rec, "fields"),
        HistoryFault::Op { rec } => record_line(alloc, rec, "op"),
        HistoryFault::Client { rec } => record_line(alloc, rec, "client"),
        HistoryFault::Key { rec } => record_line(alloc, rec, "key"),
        HistoryFault::Value { rec } => record_line(alloc, rec, "value"),
        HistoryFault::Time { rec } => record_line(alloc, rec, "time"),
        HistoryFault::Backwards { rec } => record_line(alloc, rec, "backwards"),
        HistoryFault::Slack { rec } => record_line(alloc, rec, "slack"),
        HistoryFault::Records => String::from_str(alloc, "history: more than 1000000 records\n"),
        HistoryFault::Memory => unreachable!(),
    }
}

// The line on a line of a certificate at fault.
fn cert_line(alloc: Global, number: u32, word: &str) -> Result<String, AllocError>
    ensures { IfOk result (λ line. string_bytes line ≡ cert_line number word.now) }
{
    let mut line = String::from_str(alloc, "certificate line ")?;
    write!(line, "{number}")?;
    line.push_str(": ")?;
    line.push_str(word)?;
    line.push_str("\n")?;
    Ok(line)
}

// The line on a key that a certificate leaves out.
fn absent_line(alloc: Global, key: u32) -> Result<String, AllocError>
    ensures { IfOk result (λ line.
        Some (string_bytes line) ≡ cert_fault_line (CertFault.Absent key)) }
{
    let mut line = String::from_str(alloc, "certificate: key ")?;
    write!(line, "{key}")?;
    line.push_str(" absent\n")?;
    Ok(line)
}

// The line on a fault of a certificate.
fn cert_fault_line(alloc: Global, fault: CertFault) -> Result<String, AllocError>
    requires { fault ≢ CertFault.Memory }
    ensures { IfOk result (λ line. cert_fault_line fault ≡ Some (string_bytes line)) }
{
    match fault {
        CertFault::Line { line } => cert_line(alloc, line, "line"),
        CertFault::Number { line } => cert_line(alloc, line, "number"),
        CertFault::Key { line } => cert_line(alloc, line, "key"),
        CertFault::Absent { key } => absent_line(alloc, key),
        CertFault::Memory => unreachable!(),
    }
}

// The line on a line at fault of the file of this kind.
fn trace_line(alloc: Global, kind: &str, number: u32) -> Result<String, AllocError>
    ensures { IfOk result (λ line. string_bytes line ≡ trace_line kind.now number) }
{
    let mut line = String::from_str(alloc, "trace ")?;
    line.push_str(kind)?;
    line.push_str(" line ")?;
    write!(line, "{number}")?;
    line.push_str("\n")?;
    Ok(line)
}

// The line on a fault of the two files of a run.
fn trace_fault_line(alloc: Global, fault: TraceFault) -> Result<String, AllocError>
    requires { fault ≢ TraceFault.Memory }
    ensures { IfOk result (λ line. trace_fault_line fault ≡ Some (string_bytes line)) }
{
    match fault {
        TraceFault::History { line } => trace_line(alloc, "history", line),
        TraceFault::Journal { line } => trace_line(alloc, "journal", line),
        TraceFault::Memory => unreachable!(),
    }
}

// A label, a name and the end of the line.
fn name_line_of(alloc: Global, label: &str, name: &[u8]) -> Result<Vec<u8>, AllocError>
    ensures { IfOk result (λ line. line.items ≡ label.now ++ name.now ++ codes "\n") }
{
    let mut line = Vec::from_slice(alloc, label.as_bytes())?;
    line.extend_from_slice(name)?;
    line.extend_from_slice(b"\n")?;
    Ok(line)
}

/// A line that ends with the name of a file.
pub(crate) fn name_line(alloc: Global, label: &str, name: &[u8]) -> Result<Bytes, Memory>
    ensures { IfOk result (λ line. line ≡ label.now ++ escaped name.now ++ codes "\n") }
{
    let name = escape(alloc, name)?;
    match name_line_of(alloc, label, name.as_slice()) {
        Ok(line) => Ok(Bytes::from_vec(line)),
        Err(_) => Err(Memory),
    }
}

/// Writes a line, and gives the status that goes with it. A failure changes nothing but the count of the sink.
pub(crate) fn end<E: Sink>(err: &mut E, line: &[u8], status: Status) -> Status
    ensures { Says status line.now result (E.shown err.old) (E.shown err.new) }
{
    say(err, line);
    status
}

/// Says that memory was wanting, and gives the status.
pub(crate) fn end_without_memory<E: Sink>(err: &mut E) -> Status
    ensures { Says Status.OutOfMemory memory_line result (E.shown err.old) (E.shown err.new) }
{
    end(err, b"out of memory\n", Status::OutOfMemory)
}

// Says which fault an input has, by its line, if there was memory for it, and gives the status.
fn end_by_fault<E: Sink>(line: Result<String, AllocError>, status: Status, err: &mut E) -> Status
    ensures said { IfOk line (λ line.
        Says status (string_bytes line) result (E.shown err.old) (E.shown err.new)) }
    ensures unsaid { OnErr line
        (Says Status.OutOfMemory memory_line result (E.shown err.old) (E.shown err.new)) }
{
    match line {
        Ok(line) => end(err, line.as_bytes(), status),
        Err(_) => end_without_memory(err),
    }
}

/// Writes the line of a refusal, and gives its status.
pub(crate) fn refuse<E: Sink>(alloc: Global, refusal: Refusal, err: &mut E) -> Status
    requires { CanBeSaid refusal }
    ensures { Answers refusal result (E.shown err.old) (E.shown err.new) }
{
    match refusal {
        Refusal::History(fault) => {
            end_by_fault(fault_line(alloc, fault), Status::HistoryRefused, err)
        }
        Refusal::Cert(fault) => {
            end_by_fault(cert_fault_line(alloc, fault), Status::CertRefused, err)
        }
        Refusal::Trace(fault) => {
            end_by_fault(trace_fault_line(alloc, fault), Status::TraceRefused, err)
        }
        Refusal::Missing(line) => end(err, line.as_slice(), Status::Missing),
        Refusal::ReadFailed => end(err, b"read failed\n", Status::ReadFailed),
        Refusal::WriteFailed => end(err, b"write failed\n", Status::WriteFailed),
        Refusal::TooLong(line) => end(err, line.as_slice(), Status::TooLong),
        Refusal::Memory => end_without_memory(err),
    }
}
