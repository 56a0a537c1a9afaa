//! The check of a certificate against its history.

ghost use Rattle.std.specs.Prelude.{◌≡◌, IfOk, IfErr, None};
ghost use Rattle.std.specs.String.{string_bytes};
ghost use Rattle.audit_words.specs.declared.Task.{Task};
ghost use Rattle.audit_commands.specs.Lines.{check_line};
ghost use Rattle.audit_commands.specs.Steps.{OnlyReads, FindsBoth, status_of_check};
ghost use Rattle.audit_commands.specs.Refusals.{Shows, TaskEnds};

use crate::certificate::verdicts_in;
use crate::history::history_in;
use crate::refusal::Refusal;
use crate::status::Status;
use audit_ports::{Shelf, Sink};
use cert_checker::{Checked, check_all};
use command_outputs::print;
use stale_model::Bytes;
use std::alloc::{AllocError, Global};
use std::mem::forget;

// What is found of the verdicts in the certificate file, against the history in its file.
fn found_in<S: Shelf>(
    alloc: Global,
    file: &Bytes,
    cert: &Bytes,
    shelf: &mut S,
) -> Result<Checked, Refusal>
    ensures keeps { OnlyReads (S.shown shelf.old) (S.shown shelf.new) }
    ensures ok { IfOk result (FindsBoth file.now cert.now (S.shown shelf.old) (S.shown shelf.new)) }
    ensures err { IfErr result
        (Shows (Task.Check file.now cert.now) (S.shown shelf.old) (S.shown shelf.new)) }
{
    let history = history_in(alloc, shelf, file.as_slice())?;
    let keys = history.keys.as_slice().len() as u32;
    let verdicts = verdicts_in(alloc, shelf, cert.as_slice(), keys)?;
    let found = check_all(alloc, &history, verdicts.as_slice());
    // The process ends here, so nothing is taken apart.
    forget(history);
    forget(verdicts);
    Ok(found?)
}

// The line on what was found.
fn check_line(alloc: Global, found: &Checked) -> Result<String, AllocError>
    ensures { IfOk result (λ line. string_bytes line ≡ check_line found.now) }
{
    match found {
        Checked::Good => String::from_str(alloc, "good\n"),
        Checked::Bad { key, rule, rec } => {
            let mut line = String::new(alloc);
            write!(line, "bad key {key} rule {rule} record {rec}\n")?;
            Ok(line)
        }
    }
}

// The status of what was found.
fn status_of(found: &Checked) -> Status
    ensures { result ≡ status_of_check found.now }
{
    match found {
        Checked::Good => Status::Done,
        Checked::Bad { .. } => Status::NotShown,
    }
}

/// Checks the certificate file against the history file, and writes the line on what was found.
pub(crate) fn check<S: Shelf, O: Sink>(
    alloc: Global,
    file: &Bytes,
    cert: &Bytes,
    shelf: &mut S,
    out: &mut O,
) -> Result<Status, Refusal>
    requires { (S.shown shelf.old).writing ≡ None }
    ensures { TaskEnds (Task.Check file.now cert.now) (S.shown shelf.old) (S.shown shelf.new)
        (O.shown out.old) (O.shown out.new) result }
{
    let found = found_in(alloc, file, cert, shelf)?;
    let line = check_line(alloc, &found)?;
    print(out, line.as_bytes())?;
    Ok(status_of(&found))
}
