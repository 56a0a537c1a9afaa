//! What a run of the store in a table is, and how the program is called with a crew.

ghost use Rattle.std.specs.Prelude.{◌≡◌, [], None, IfOk};
ghost use Rattle.audit_ports.specs.MemoryFiles.{HaveDistinctNames};

use crate::harness::{
    Answer, Row, demand_answer, demand_files, failing, file_of, shelf_of, shelf_with, sink_of,
    words_of,
};
use audit_ports::{Gate, MemoryShelf, OpenGate, ThreadCrew};
use audit_words::Word;
use bench_commands::run;
use bench_run::BenchJob;
use stale_model::{Bytes, List};
use std::alloc::{AllocError, Global};
use std::process::Abort;
use std::sync::Wait;
use std::thread::Threads;

/// A run of the store that writes the files `h` and `j`: its words, the calls of the outside that fail, and what comes of
/// it. The file `other` is there, and never changes.
#[derive(Clone, Copy)]
pub struct BenchRow<'a> {
    /// What the row shows.
    pub shows: &'a str,
    /// The words, with a blank between two of them.
    pub words: &'a str,
    /// What the files `h` and `j` hold before, where they are there.
    pub before: Option<&'a str>,
    /// The numbers of the calls that fail, of the shelf, of the output and of the error output.
    pub shelf_fails: &'a [u32],
    pub out_fails: &'a [u32],
    pub err_fails: &'a [u32],
    /// The numbers of the starts that the crew refuses.
    pub start_fails: &'a [u32],
    pub status: u8,
    pub out: &'a str,
    pub err: &'a str,
    /// What the files `h` and `j` hold afterwards, where they are there then.
    pub history: Option<&'a str>,
    pub journal: Option<&'a str>,
}

impl<'a> BenchRow<'a> {
    /// A run where no call fails, no file is there before, and nothing is written.
    pub fn of(shows: &'a str, words: &'a str) -> BenchRow<'a> {
        BenchRow {
            shows,
            words,
            before: None,
            shelf_fails: &[],
            out_fails: &[],
            err_fails: &[],
            start_fails: &[],
            status: 0,
            out: "",
            err: "",
            history: None,
            journal: None,
        }
    }

    /// The same, refused with this status and line.
    pub fn refused(shows: &'a str, words: &'a str, status: u8, err: &'a str) -> BenchRow<'a> {
        BenchRow {
            status,
            err,
            ..BenchRow::of(shows, words)
        }
    }
}

const OTHER: &[u8] = b"no call names this file";

// The files before a run.
fn files_before(alloc: Global, row: &BenchRow) -> Result<List<(Bytes, Bytes)>, AllocError>
    ensures { IfOk result HaveDistinctNames }
{
    let other = file_of(alloc, b"other", OTHER)?;
    let files = match row.before {
        Some(text) => {
            let history = file_of(alloc, b"h", text.as_bytes())?;
            let journal = file_of(alloc, b"j", text.as_bytes())?;
            Vec::from_array(alloc, [other, history, journal])?
        }
        None => Vec::from_array(alloc, [other])?,
    };
    Ok(List::from_vec(files))
}

// A crew with as many places as the program's, which refuses these starts.
fn crew_of<R: Threads + Wait + Copy + Send + Sync + AllocGlobal + 'static>(
    rt: &R,
    start_fails: &[u32],
) -> Result<ThreadCrew<BenchJob<R>, R>, AllocError>
    ensures { IfOk result (λ crew. crew.jobs ≡ []) }
{
    let fail = failing(rt.alloc(), start_fails)?;
    match ThreadCrew::prepare(*rt, rt.alloc(), 32, fail) {
        Ok(crew) => Ok(crew),
        Err(_) => Err(AllocError),
    }
}

// The words between the blanks of a line.
fn words_in(alloc: Global, line: &str) -> Result<Vec<Word>, AllocError> {
    let mut texts = Vec::new(alloc);
    for text in line.split(' ') {
        texts.push(text)?;
    }
    words_of(alloc, &texts)
}

/// Calls the program with the words of a run, past a gate, and gives its answer and the files that it left.
pub fn call<R: Threads + Wait + Copy + Send + Sync + AllocGlobal + 'static, G: Gate>(
    rt: &R,
    row: &BenchRow,
    gate: &G,
) -> Result<(Answer, MemoryShelf), AllocError> {
    let alloc = rt.alloc();
    let words = words_in(alloc, row.words)?;
    let mut shelf = shelf_with(alloc, files_before(alloc, row)?, row.shelf_fails)?;
    let mut out = sink_of(alloc, row.out_fails)?;
    let mut err = sink_of(alloc, row.err_fails)?;
    let mut crew = crew_of(rt, row.start_fails)?;
    let status = run(
        rt, alloc, &words, &mut shelf, &mut out, &mut err, &mut crew, gate,
    );
    Ok((Answer { status, out, err }, shelf))
}

/// Runs a row past a gate, and demands its answer and its files.
pub fn run_past<R: Threads + Wait + Copy + Send + Sync + Abort + AllocGlobal + 'static, G: Gate>(
    rt: &R,
    row: &BenchRow,
    gate: &G,
) -> Result<(), AllocError> {
    let (answer, shelf) = call(rt, row, gate)?;
    let shows = row.shows;
    demand_answer(rt, shows, &answer, (row.status, row.out, row.err));
    assert!(rt;
        shelf.file(b"h") == row.history.map(str::as_bytes),
        "{shows}: h"
    );
    assert!(rt;
        shelf.file(b"j") == row.journal.map(str::as_bytes),
        "{shows}: j"
    );
    assert!(rt; shelf.file(b"other") == Some(OTHER), "{shows}: other");
    Ok(())
}

/// Runs each row of a table.
pub fn run_benches<R: Threads + Wait + Copy + Send + Sync + Abort + AllocGlobal + 'static>(
    rt: &R,
    rows: &[BenchRow],
) -> Result<(), AllocError> {
    for row in rows {
        run_past(rt, row, &OpenGate)?;
    }
    Ok(())
}

/// Runs a row of another mode by the call that has a crew, and demands its answer and its files.
pub fn run_with_crew<R: Threads + Wait + Copy + Send + Sync + Abort + AllocGlobal + 'static>(
    rt: &R,
    row: &Row,
) -> Result<(), AllocError> {
    let alloc = rt.alloc();
    let words = words_of(alloc, row.words)?;
    let mut shelf = shelf_of(alloc, row)?;
    let mut out = sink_of(alloc, row.out_fails)?;
    let mut err = sink_of(alloc, row.err_fails)?;
    let mut crew = crew_of(rt, &[])?;
    let status = run(
        rt, alloc, &words, &mut shelf, &mut out, &mut err, &mut crew, &OpenGate,
    );
    let answer = Answer { status, out, err };
    demand_answer(rt, row.shows, &answer, (row.status, row.out, row.err));
    demand_files(rt, row, &shelf);
    Ok(())
}
