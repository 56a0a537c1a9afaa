//! A bench: a run of the store, its two files, and the report on its history.

ghost use Rattle.std.specs.Prelude.{◌≡◌, [], None};
ghost use Rattle.audit_words.specs.Limits.{IsBench};
ghost use Rattle.bench_commands.specs.Steps.{WritesTexts, Performs};

use crate::recording::record;
use crate::refusal::BenchRefusal;
use crate::texts::{Texts, texts_of};
use audit_ports::{Failed, Gate, Shelf, Sink, ThreadCrew};
use audit_words::Bench;
use bench_run::BenchJob;
use command_outputs::{print, write_file};
use std::alloc::Global;
use std::mem::forget;
use std::sync::Wait;
use std::thread::Threads;

// Writes the file for the history, then the one for the journals, and then the report.
fn write_texts<S: Shelf, O: Sink>(
    bench: &Bench,
    texts: &Texts,
    shelf: &mut S,
    out: &mut O,
) -> Result<(), Failed>
    requires { (S.shown shelf.old).writing ≡ None }
    ensures { WritesTexts bench.now texts.now (S.shown shelf.old) (S.shown shelf.new)
        (O.shown out.old) (O.shown out.new) result }
{
    write_file(shelf, bench.history.as_slice(), texts.history.as_slice())?;
    write_file(shelf, bench.journal.as_slice(), texts.journal.as_slice())?;
    print(out, texts.report.as_slice())
}

/// Makes a run, and then all texts, and writes them.
pub(crate) fn perform<R: Threads + Wait + Copy + Send + Sync + 'static, S: Shelf, O: Sink, G: Gate>(
    rt: &R,
    alloc: Global,
    bench: &Bench,
    shelf: &mut S,
    out: &mut O,
    crew: &mut ThreadCrew<BenchJob<R>, R>,
    gate: &G,
) -> Result<(), BenchRefusal>
    requires bench { IsBench bench.now }
    requires writing { (S.shown shelf.old).writing ≡ None }
    requires none { crew.old.jobs ≡ [] }
    ensures joined { crew.new.jobs ≡ [] }
    ensures performs { Performs bench.now (S.shown shelf.old) (S.shown shelf.new)
        (O.shown out.old) (O.shown out.new) crew.old crew.new result }
{
    let recording = record(rt, alloc, &bench.settings, crew, gate)?;
    let texts = texts_of(rt, alloc, &recording, bench.workers)?;
    let written = write_texts(bench, &texts, shelf, out);
    // The process ends here, so nothing is taken apart.
    forget(recording);
    forget(texts);
    written?;
    Ok(())
}
