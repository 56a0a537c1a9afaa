//! The one path of each command that judges a history file.

ghost use Rattle.std.specs.Prelude.{◌≡◌, None};
ghost use Rattle.audit_words.specs.Limits.{IsMeasure};
ghost use Rattle.audit_words.specs.declared.Task.{Task};
ghost use Rattle.audit_commands.specs.Audit.{cert_file};
ghost use Rattle.audit_commands.specs.Refusals.{Certifies, WritesTexts, TaskEnds};

use crate::history::history_in;
use crate::refusal::Refusal;
use crate::status::Status;
use crate::texts::{Texts, texts_of};
use audit_ports::{Failed, Gate, Shelf, Sink};
use audit_words::Measure;
use command_outputs::{print, write_file};
use stale_model::Bytes;
use std::alloc::Global;
use std::mem::forget;
use std::thread::Threads;

// Writes the certificate, where the measure names a file for it.
fn certify<S: Shelf>(measure: &Measure, cert: &[u8], shelf: &mut S) -> Result<(), Failed>
    requires { (S.shown shelf.old).writing ≡ None }
    ensures { Certifies (cert_file measure.now) cert.now (S.shown shelf.old) (S.shown shelf.new) result }
{
    match measure {
        Measure::Audit {
            cert: Some(name),
            ..
        } => write_file(shelf, name.as_slice(), cert),
        _ => Ok(()),
    }
}

// Writes the certificate, where the measure names a file for it, and then the text of the output.
fn write_texts<S: Shelf, O: Sink>(
    measure: &Measure,
    texts: &Texts,
    shelf: &mut S,
    out: &mut O,
) -> Result<(), Failed>
    requires { (S.shown shelf.old).writing ≡ None }
    ensures { WritesTexts (cert_file measure.now) texts.now (S.shown shelf.old) (S.shown shelf.new)
        (O.shown out.old) (O.shown out.new) result }
{
    certify(measure, texts.cert.as_slice(), shelf)?;
    print(out, texts.output.as_slice())
}

/// Judges the history file of this name by the measure: takes it, makes all text, and writes the certificate where the
/// measure names a file for it, and then the text of the output.
pub(crate) fn judge<R: Threads + Sync, S: Shelf, O: Sink, G: Gate>(
    rt: &R,
    alloc: Global,
    file: &Bytes,
    measure: &Measure,
    shelf: &mut S,
    out: &mut O,
    gate: &G,
) -> Result<Status, Refusal>
    requires within { IsMeasure measure.now }
    requires writing { (S.shown shelf.old).writing ≡ None }
    ensures { TaskEnds (Task.Judge file.now measure.now) (S.shown shelf.old) (S.shown shelf.new)
        (O.shown out.old) (O.shown out.new) result }
{
    let history = history_in(alloc, shelf, file.as_slice())?;
    let texts = texts_of(rt, alloc, &history, measure, gate)?;
    // The process ends after the outputs, so nothing is taken apart.
    forget(history);
    write_texts(measure, &texts, shelf, out)?;
    Ok(Status::Done)
}
