//! What a row of a table is, and how it is run.

ghost use Rattle.std.specs.Prelude.{◌≡◌, ◌<◌, None, IfOk};
ghost use Rattle.audit_ports.specs.MemoryFiles.{HaveDistinctNames};
ghost use Rattle.audit_ports.specs.MemoryShown.{memory_shown};

use audit_commands::run_offline;
use audit_ports::{Failed, Gate, MemoryShelf, MemorySink, OpenFault, OpenGate, Shelf};
use audit_words::Word;
use stale_model::{Bytes, List};
use std::alloc::{AllocError, Global};
use std::process::Abort;
use std::thread::Threads;

/// A call of the program: its words, the files `h` and `c`, the calls of the outside that fail, and what comes of it.
/// The file `h` is there, and never changes.
#[derive(Clone, Copy)]
pub struct Row<'a> {
    /// What the row shows.
    pub shows: &'a str,
    pub words: &'a [&'a str],
    /// The bytes of the file `h`.
    pub history: &'a [u8],
    /// The bytes of the file `c`, where there is one.
    pub cert: Option<&'a [u8]>,
    /// The numbers of the calls that fail, of the shelf, of the output and of the error output.
    pub shelf_fails: &'a [u32],
    pub out_fails: &'a [u32],
    pub err_fails: &'a [u32],
    pub status: u8,
    pub out: &'a str,
    pub err: &'a str,
    /// The name of a file, and its bytes afterwards, where there is one then.
    pub after: (&'a str, Option<&'a [u8]>),
}

impl<'a> Row<'a> {
    /// `audit h`, where no call fails.
    pub fn audit(shows: &'a str, history: &'a [u8], out: &'a str) -> Row<'a> {
        Row {
            shows,
            words: &["audit", "h"],
            history,
            cert: None,
            shelf_fails: &[],
            out_fails: &[],
            err_fails: &[],
            status: 0,
            out,
            err: "",
            after: ("c", None),
        }
    }

    /// These words, which name no file, where no call fails.
    pub fn words(shows: &'a str, words: &'a [&'a str], out: &'a str) -> Row<'a> {
        Row {
            words,
            ..Row::audit(shows, b"no file is opened", out)
        }
    }

    /// `audit h`, where no call fails, that is refused with this status and line.
    pub fn refused(shows: &'a str, history: &'a [u8], status: u8, err: &'a str) -> Row<'a> {
        Row {
            status,
            err,
            ..Row::audit(shows, history, "")
        }
    }

    /// `audit h --cert c`, where no call fails and there is no `c` before.
    pub fn certify(shows: &'a str, history: &'a [u8], out: &'a str, cert: &'a [u8]) -> Row<'a> {
        Row {
            words: &["audit", "h", "--cert", "c"],
            after: ("c", Some(cert)),
            ..Row::audit(shows, history, out)
        }
    }

    /// `check h c`, where no call fails: with status 0 or 1 the answer is the output, else the line on `err`.
    pub fn check(
        shows: &'a str,
        history: &'a [u8],
        cert: &'a [u8],
        status: u8,
        answer: &'a str,
    ) -> Row<'a> {
        let (out, err) = if status < 2 {
            (answer, "")
        } else {
            ("", answer)
        };
        Row {
            words: &["check", "h", "c"],
            cert: Some(cert),
            status,
            err,
            after: ("c", Some(cert)),
            ..Row::audit(shows, history, out)
        }
    }
}

/// The numbers of the calls that fail.
pub fn failing(alloc: Global, calls: &[u32]) -> Result<List<u32>, AllocError> {
    Ok(List::from_vec(Vec::from_slice(alloc, calls)?))
}

/// The words of these texts.
pub fn words_of(alloc: Global, texts: &[&str]) -> Result<Vec<Word>, AllocError> {
    let mut words = Vec::new(alloc);
    for text in texts {
        let Ok(word) = Word::of(alloc, text) else {
            return Err(AllocError);
        };
        words.push(word)?;
    }
    Ok(words)
}

/// A file: its name and its bytes.
pub fn file_of(alloc: Global, name: &[u8], bytes: &[u8]) -> Result<(Bytes, Bytes), AllocError>
    ensures { IfOk result (λ file. file.0 ≡ name.now) }
{
    let (Ok(name), Ok(bytes)) = (Bytes::of(alloc, name), Bytes::of(alloc, bytes)) else {
        return Err(AllocError);
    };
    Ok((name, bytes))
}

/// The file `h`, and the file `c` where there is one.
pub fn files_of(alloc: Global, row: &Row) -> Result<List<(Bytes, Bytes)>, AllocError>
    ensures { IfOk result HaveDistinctNames }
{
    let history = file_of(alloc, b"h", row.history)?;
    let files = match row.cert {
        Some(cert) => Vec::from_array(alloc, [history, file_of(alloc, b"c", cert)?])?,
        None => Vec::from_array(alloc, [history])?,
    };
    Ok(List::from_vec(files))
}

/// A shelf with these files, of which these calls fail.
pub fn shelf_with(
    alloc: Global,
    files: List<(Bytes, Bytes)>,
    fail: &[u32],
) -> Result<MemoryShelf, AllocError>
    requires { HaveDistinctNames files }
    ensures { IfOk result (λ shelf. (memory_shown shelf).writing ≡ None) }
{
    match MemoryShelf::prepare(alloc, files, failing(alloc, fail)?) {
        Ok(shelf) => Ok(shelf),
        Err(_) => Err(AllocError),
    }
}

/// A shelf with the files of a row.
pub fn shelf_of(alloc: Global, row: &Row) -> Result<MemoryShelf, AllocError>
    ensures { IfOk result (λ shelf. (memory_shown shelf).writing ≡ None) }
{
    shelf_with(alloc, files_of(alloc, row)?, row.shelf_fails)
}

/// An output of which these calls fail.
pub fn sink_of(alloc: Global, fail: &[u32]) -> Result<MemorySink, AllocError> {
    match MemorySink::prepare(alloc, failing(alloc, fail)?) {
        Ok(sink) => Ok(sink),
        Err(_) => Err(AllocError),
    }
}

/// A shelf that gives at most so many bytes a call. It tells nothing of its files.
#[derive(Drop)]
pub struct ShortShelf {
    inner: MemoryShelf,
    most: usize,
    ghost some: { 0 < most },
}

impl Shelf for ShortShelf {
    ghost use Rattle.std.specs.Prelude.{None};
    ghost use Rattle.audit_ports.specs.MemoryShown.{memory_shown};

    ghost shown = { λ shelf. record (memory_shown shelf.inner) { files = None } };

    fn open(&mut self, name: &[u8]) -> Result<(), OpenFault> {
        self.inner.open(name)
    }

    fn read(&mut self, into: &mut [u8]) -> Result<usize, Failed> {
        let most = self.most.min(into.len());
        self.inner.read(&mut into[..most])
    }

    fn create(&mut self, name: &[u8]) -> Result<(), Failed> {
        self.inner.create(name)
    }

    fn write(&mut self, piece: &[u8]) -> Result<(), Failed> {
        self.inner.write(piece)
    }

    fn finish(&mut self) -> Result<(), Failed> {
        self.inner.finish()
    }
}

/// What a call of the program answers.
#[derive(Drop)]
pub struct Answer {
    pub status: u8,
    pub out: MemorySink,
    pub err: MemorySink,
}

/// Demands that an answer has this status, output and error output.
pub fn demand_answer<R: Abort>(
    rt: &R,
    shows: &str,
    answer: &Answer,
    (status, out, err): (u8, &str, &str),
) {
    let found = answer.status;
    assert!(rt; found == status, "{shows}: status {found}");
    assert!(rt; answer.out.written() == out.as_bytes(), "{shows}: output");
    assert!(rt;
        answer.err.written() == err.as_bytes(),
        "{shows}: error output"
    );
}

// Runs a row over a shelf, and demands its answer.
fn run_over<R: Threads + Sync + Abort + AllocGlobal, S: Shelf, G: Gate>(
    rt: &R,
    row: &Row,
    shelf: &mut S,
    gate: &G,
) -> Result<(), AllocError>
    requires { (S.shown shelf.old).writing ≡ None }
{
    let alloc = rt.alloc();
    let words = words_of(alloc, row.words)?;
    let mut out = sink_of(alloc, row.out_fails)?;
    let mut err = sink_of(alloc, row.err_fails)?;
    let status = run_offline(rt, alloc, &words, shelf, &mut out, &mut err, gate);
    let answer = Answer { status, out, err };
    demand_answer(rt, row.shows, &answer, (row.status, row.out, row.err));
    Ok(())
}

/// Demands that a shelf's files are those of a row afterwards.
pub fn demand_files<R: Abort>(rt: &R, row: &Row, shelf: &MemoryShelf) {
    let shows = row.shows;
    let (name, bytes) = row.after;
    assert!(rt; shelf.file(b"h") == Some(row.history), "{shows}: h");
    assert!(rt; shelf.file(name.as_bytes()) == bytes, "{shows}: {name}");
}

/// Runs a row, and demands its answer and its files.
pub fn run_row<R: Threads + Sync + Abort + AllocGlobal>(
    rt: &R,
    row: &Row,
) -> Result<(), AllocError> {
    let mut shelf = shelf_of(rt.alloc(), row)?;
    run_over(rt, row, &mut shelf, &OpenGate)?;
    demand_files(rt, row, &shelf);
    Ok(())
}

/// Runs a row over a shelf that gives at most so many bytes a call, and demands its answer and its files.
pub fn run_shortly<R: Threads + Sync + Abort + AllocGlobal>(
    rt: &R,
    row: &Row,
    most: usize,
) -> Result<(), AllocError>
    requires { 0 < most }
{
    let inner = shelf_of(rt.alloc(), row)?;
    let mut shelf = ShortShelf { inner, most };
    run_over(rt, row, &mut shelf, &OpenGate)?;
    demand_files(rt, row, &shelf.inner);
    Ok(())
}

/// Runs a row that writes the file `c`, and demands its answer, and that `check` finds the file good.
pub fn run_then_check<R: Threads + Sync + Abort + AllocGlobal>(
    rt: &R,
    row: &Row,
) -> Result<(), AllocError> {
    let mut shelf = shelf_of(rt.alloc(), row)?;
    run_over(rt, row, &mut shelf, &OpenGate)?;
    let Some(cert) = shelf.file(b"c") else {
        panic!(rt; "no certificate");
    };
    run_row(rt, &Row::check(row.shows, row.history, cert, 0, "good\n"))
}

/// What a row with status 0 writes: the output, and the bytes of the file `c`, none where it is not there.
pub fn written_by<R: Threads + Sync + Abort + AllocGlobal>(
    rt: &R,
    row: &Row,
) -> Result<(Vec<u8>, Vec<u8>), AllocError> {
    let alloc = rt.alloc();
    let words = words_of(alloc, row.words)?;
    let mut shelf = shelf_of(alloc, row)?;
    let mut out = sink_of(alloc, &[])?;
    let mut err = sink_of(alloc, &[])?;
    let status = run_offline(rt, alloc, &words, &mut shelf, &mut out, &mut err, &OpenGate);
    assert!(rt; status == 0);
    let cert = shelf.file(b"c").unwrap_or(b"");
    Ok((
        Vec::from_slice(alloc, out.written())?,
        Vec::from_slice(alloc, cert)?,
    ))
}

/// Audits a history past a gate, where no call fails, and gives the status.
pub fn audit_past<R: Threads + Sync + AllocGlobal, G: Gate>(
    rt: &R,
    history: &[u8],
    gate: &G,
) -> Result<u8, AllocError> {
    let alloc = rt.alloc();
    let row = Row::audit("an audit past a gate", history, "");
    let words = words_of(alloc, row.words)?;
    let mut shelf = shelf_of(alloc, &row)?;
    let mut out = sink_of(alloc, &[])?;
    let mut err = sink_of(alloc, &[])?;
    Ok(run_offline(rt, alloc, &words, &mut shelf, &mut out, &mut err, gate))
}

/// Runs each row of a table.
pub fn run_table<R: Threads + Sync + Abort + AllocGlobal>(
    rt: &R,
    rows: &[Row],
) -> Result<(), AllocError> {
    for row in rows {
        run_row(rt, row)?;
    }
    Ok(())
}
