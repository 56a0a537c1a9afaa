//! Each call of the outside that fails in its turn: the answer, and what stands in the files and the outputs after it.

ghost use Rattle.std.specs.Prelude.{◌≡◌, ◌≤◌, None, IfOk};
ghost use Rattle.audit_ports.specs.MemoryShown.{memory_shown};

use crate::bench_rows::{WRITES, WRITES_HISTORY, WRITES_JOURNAL, writes};
use crate::harness::{
    Answer, Row, demand_answer, demand_files, failing, files_of, run_row, sink_of, words_of,
};
use crate::outside::{CERT, HISTORY, REPORT};
use crate::runs::{BenchRow, call, run_past};
use audit_commands::run_offline;
use audit_ports::{MemoryShelf, OpenGate};
use std::alloc::{AllocError, Global};
use std::process::Abort;
use std::sync::Wait;
use std::test::Fail;
use std::thread::Threads;

/// What has calls that are numbered.
#[derive(Clone, Copy)]
enum Port {
    Shelf,
    Output,
    ErrorOutput,
}

/// A call that fails, and the status that it has to give.
#[derive(Clone, Copy)]
struct Refused {
    port: Port,
    call: u32,
    status: u8,
}

// The numbers of calls that may fail, each at the place of its own.
const NUMBERS: &[u32] = &[
    0, 1, 2, 3, 4, 5, 6, 7, 8, 9, 10, 11, 12, 13, 14, 15, 16, 17, 18, 19, 20, 21, 22, 23, 24, 25,
    26, 27, 28, 29, 30, 31, 32, 33, 34, 35, 36, 37, 38, 39, 40, 41, 42, 43, 44, 45, 46, 47, 48, 49,
    50, 51, 52, 53, 54, 55, 56, 57, 58, 59, 60, 61, 62, 63,
];

// The call of this number alone.
fn alone(call: u32) -> &'static [u32] {
    let place = call as usize;
    match NUMBERS.get(place..place + 1) {
        Some(one) => one,
        None => &[],
    }
}

// The line of a status that a failing call gives.
fn line_of(status: u8) -> &'static str {
    match status {
        6 => "read failed\n",
        7 => "write failed\n",
        _ => "",
    }
}

// Whether these are the first bytes of a whole.
fn is_part(part: &[u8], whole: &[u8]) -> bool {
    whole.get(..part.len()) == Some(part)
}

// Demands the status of a call that failed, its line, where a call of `err` fails a part of that, and a part of the
// output.
fn demand_refusal<R: Abort>(rt: &R, refused: Refused, answer: &Answer, out: &str) {
    let Refused { port, call, status } = refused;
    let (found, line) = (answer.status, line_of(status).as_bytes());
    assert!(rt; found == status, "call {call}: status {found}");
    let says = answer.err.written();
    let is_line = match port {
        Port::ErrorOutput => is_part(says, line),
        _ => says == line,
    };
    assert!(rt; is_line, "call {call}: error output");
    let gained = answer.out.written();
    assert!(rt; is_part(gained, out.as_bytes()), "call {call}: output");
    assert!(rt; status != 6 || gained.is_empty(), "call {call}: output");
}

// A shelf with the files of a row, which gives at most `cut` bytes a read.
fn cut_shelf(alloc: Global, row: &Row, cut: u32) -> Result<MemoryShelf, AllocError>
    requires { 1 ≤ cut }
    ensures { IfOk result (λ shelf. (memory_shown shelf).writing ≡ None) }
{
    let fail = failing(alloc, row.shelf_fails)?;
    match MemoryShelf::prepare_cut(alloc, files_of(alloc, row)?, fail, cut) {
        Ok(shelf) => Ok(shelf),
        Err(_) => Err(AllocError),
    }
}

// Runs a row over such a shelf, and gives its answer and the files that it left.
fn answer_to<R: Threads + Sync + AllocGlobal>(
    rt: &R,
    row: &Row,
    cut: u32,
) -> Result<(Answer, MemoryShelf), AllocError>
    requires { 1 ≤ cut }
{
    let alloc = rt.alloc();
    let words = words_of(alloc, row.words)?;
    let mut shelf = cut_shelf(alloc, row, cut)?;
    let mut out = sink_of(alloc, row.out_fails)?;
    let mut err = sink_of(alloc, row.err_fails)?;
    let status = run_offline(rt, alloc, &words, &mut shelf, &mut out, &mut err, &OpenGate);
    Ok((Answer { status, out, err }, shelf))
}

// A row, where these calls of a port fail.
fn with_failing<'a>(row: &Row<'a>, port: Port, fails: &'a [u32]) -> Row<'a> {
    match port {
        Port::Shelf => Row {
            shelf_fails: fails,
            ..*row
        },
        Port::Output => Row {
            out_fails: fails,
            ..*row
        },
        Port::ErrorOutput => Row {
            err_fails: fails,
            ..*row
        },
    }
}

// Demands that the history is as it was, and that the certificate is a part of its text, where there is one: there is
// none after a failed read.
fn demand_part<R: Abort>(rt: &R, refused: Refused, shelf: &MemoryShelf) {
    let Refused { call, status, .. } = refused;
    assert!(rt; shelf.file(b"h") == Some(HISTORY), "call {call}: h");
    if let Some(part) = shelf.file(b"c") {
        assert!(rt; status != 6, "call {call}: c");
        assert!(rt; is_part(part, CERT), "call {call}: c");
    }
}

// The calls of a port: the statuses of those that are made, where each fails in its turn, and the number of none of
// them.
#[derive(Clone, Copy)]
struct Calls<'a> {
    port: Port,
    statuses: &'a [u8],
    next: u32,
}

// Makes each call of a port fail in its turn, and demands its status; where none fails, the row has its own answer.
fn fail_in_turn<R: Threads + Sync + Abort + AllocGlobal>(
    rt: &R,
    row: &Row,
    cut: u32,
    calls: Calls,
) -> Result<(), AllocError>
    requires { 1 ≤ cut }
{
    let Calls {
        port,
        statuses,
        next,
    } = calls;
    for (call, &status) in (1..u32::MAX).zip(statuses) {
        let (answer, shelf) = answer_to(rt, &with_failing(&*row, port, alone(call)), cut)?;
        let refused = Refused { port, call, status };
        demand_refusal(rt, refused, &answer, row.out);
        demand_part(rt, refused, &shelf);
    }
    let (answer, shelf) = answer_to(rt, &with_failing(&*row, port, alone(next)), cut)?;
    demand_answer(rt, row.shows, &answer, (row.status, row.out, row.err));
    demand_files(rt, row, &shelf);
    Ok(())
}

// An audit that writes a certificate.
fn certified<'a>() -> Row<'a> {
    Row::certify("an audit with a certificate", HISTORY, REPORT, CERT)
}

// The same, where these calls of the output and of the error output fail.
fn unwritten<'a>(out_fails: &'a [u32], err_fails: &'a [u32], err: &'a str) -> Row<'a> {
    Row {
        out_fails,
        err_fails,
        status: 7,
        out: "",
        err,
        ..certified()
    }
}

// It opens, reads twice, creates, writes and finishes; it writes and flushes the report; and it says nothing.
#[test]
fn each_call_of_an_audit_fails_in_its_turn(rt: HostRuntime) -> Result<(), Fail> {
    let calls = [
        Calls {
            port: Port::Shelf,
            statuses: &[6, 6, 6, 7, 7, 7],
            next: 7,
        },
        Calls {
            port: Port::Output,
            statuses: &[7, 7],
            next: 3,
        },
        Calls {
            port: Port::ErrorOutput,
            statuses: &[],
            next: 1,
        },
    ];
    for calls in calls {
        fail_in_turn(&rt, &certified(), u32::MAX, calls)?;
    }
    Ok(())
}

#[test]
fn a_line_that_is_not_written_changes_no_status(rt: HostRuntime) -> Result<(), Fail> {
    let calls = Calls {
        port: Port::ErrorOutput,
        statuses: &[7],
        next: 2,
    };
    let row = unwritten(&[1], &[], "write failed\n");
    fail_in_turn(&rt, &row, u32::MAX, calls)?;
    run_row(&rt, &unwritten(&[1], &[1], ""))?;
    Ok(())
}

// The history has 57 bytes: opened by call 1, read by calls 2 to 58, and its end is call 59. Calls 60 to 62 write the
// certificate.
#[test]
fn each_read_of_one_byte_fails_in_its_turn(rt: HostRuntime) -> Result<(), Fail> {
    let mut statuses = Vec::new(rt.alloc());
    statuses.resize(59, 6u8)?;
    statuses.resize(62, 7)?;
    let calls = Calls {
        port: Port::Shelf,
        statuses: &statuses,
        next: 63,
    };
    fail_in_turn(&rt, &certified(), 1, calls)?;
    Ok(())
}

// A run, where these calls of a port fail.
fn run_with_failing<'a>(row: &BenchRow<'a>, port: Port, fails: &'a [u32]) -> BenchRow<'a> {
    match port {
        Port::Shelf => BenchRow {
            shelf_fails: fails,
            ..*row
        },
        Port::Output => BenchRow {
            out_fails: fails,
            ..*row
        },
        Port::ErrorOutput => BenchRow {
            err_fails: fails,
            ..*row
        },
    }
}

// Demands that each of the two files is a part of its text, where it is there, and that the first is whole where the
// second is.
fn demand_two_parts<R: Abort>(rt: &R, refused: Refused, shelf: &MemoryShelf) {
    let call = refused.call;
    let history = shelf.file(b"h");
    if let Some(part) = history {
        assert!(rt; is_part(part, WRITES_HISTORY.as_bytes()), "call {call}: h");
    }
    if let Some(part) = shelf.file(b"j") {
        assert!(rt; is_part(part, WRITES_JOURNAL.as_bytes()), "call {call}: j");
        assert!(rt;
            history == Some(WRITES_HISTORY.as_bytes()),
            "call {call}: h"
        );
    }
}

// As `fail_in_turn`, of a run, where each refusal has status 7.
fn fail_run_in_turn<R: Threads + Wait + Copy + Send + Sync + Abort + AllocGlobal + 'static>(
    rt: &R,
    row: &BenchRow,
    port: Port,
    next: u32,
) -> Result<(), AllocError> {
    for number in 1..next {
        let (answer, shelf) = call(rt, &run_with_failing(&*row, port, alone(number)), &OpenGate)?;
        let refused = Refused {
            port,
            call: number,
            status: 7,
        };
        demand_refusal(rt, refused, &answer, row.out);
        demand_two_parts(rt, refused, &shelf);
    }
    run_past(rt, &run_with_failing(&*row, port, alone(next)), &OpenGate)
}

#[test]
fn each_call_of_a_run_fails_in_its_turn(rt: HostRuntime) -> Result<(), Fail> {
    let row = writes("a run of two writes", WRITES);
    // It creates, writes and finishes two files; it writes and flushes the report; and it says nothing.
    fail_run_in_turn(&rt, &row, Port::Shelf, 7)?;
    fail_run_in_turn(&rt, &row, Port::Output, 3)?;
    fail_run_in_turn(&rt, &row, Port::ErrorOutput, 1)?;
    let row = BenchRow {
        out_fails: &[1],
        status: 7,
        out: "",
        err: "write failed\n",
        ..row
    };
    fail_run_in_turn(&rt, &row, Port::ErrorOutput, 2)?;
    Ok(())
}
