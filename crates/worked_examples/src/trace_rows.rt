//! `trace` over the two files of runs, and over files that are none.

use crate::harness::{Answer, Row, run_row, run_table, shelf_of, sink_of, words_of};
use crate::runs::{BenchRow, call};
use audit_commands::run_offline;
use audit_ports::{MemoryShelf, OpenGate};
use std::alloc::{AllocError, Global};
use std::process::Abort;
use std::sync::Wait;
use std::test::Fail;
use std::thread::Threads;

// The settings of two writes by one client to one replica, for the files `h` and `c`.
const WORDS: &[&str] = &[
    "trace",
    "h",
    "c",
    "--clients",
    "1",
    "--replicas",
    "1",
    "--calls",
    "2",
    "--keys",
    "1",
    "--writes",
    "100",
];

const HISTORY: &[u8] =
    b"client,op,key,value,start,finish,seq,took\n0,w,k0,v1,1,3,1,2\n0,w,k0,v2,4,6,2,5\n";

const JOURNAL: &[u8] =
    b"replica,serve,client,seq,start,key,op,value,stamp\n0,2,0,1,1,k0,w,v1,1\n0,5,0,2,4,k0,w,v2,4\n";

// The trace of these two files: with status 0 or 1 the answer is the output, else the line on `err`.
fn trace<'a>(
    shows: &'a str,
    (history, journal): (&'a [u8], &'a [u8]),
    status: u8,
    answer: &'a str,
) -> Row<'a> {
    Row {
        words: WORDS,
        ..Row::check(shows, history, journal, status, answer)
    }
}

#[test]
fn parts_of_a_run_are_told(rt: HostRuntime) -> Result<(), Fail> {
    run_table(
        &rt,
        &[
            trace("two writes", (HISTORY, JOURNAL), 0, "good\n"),
            trace(
                "a call is left out",
                (
                    b"client,op,key,value,start,finish,seq,took\n0,w,k0,v1,1,3,1,2\n",
                    JOURNAL,
                ),
                1,
                "bad trace part 1\n",
            ),
            trace(
                "a call finishes at the ticket of a reply",
                (
                    b"client,op,key,value,start,finish,seq,took\n0,w,k0,v1,1,3,1,2\n0,w,k0,v2,4,5,2,5\n",
                    JOURNAL,
                ),
                1,
                "bad trace part 2\n",
            ),
            trace(
                "a reply is left out",
                (
                    HISTORY,
                    b"replica,serve,client,seq,start,key,op,value,stamp\n0,2,0,1,1,k0,w,v1,1\n",
                ),
                1,
                "bad trace part 3\n",
            ),
            trace(
                "a stamp that the replica does not hold",
                (
                    HISTORY,
                    b"replica,serve,client,seq,start,key,op,value,stamp\n0,2,0,1,1,k0,w,v1,1\n0,5,0,2,4,k0,w,v2,3\n",
                ),
                1,
                "bad trace part 5\n",
            ),
        ],
    )?;
    Ok(())
}

#[test]
fn lines_at_fault_are_told(rt: HostRuntime) -> Result<(), Fail> {
    let zero_before =
        b"client,op,key,value,start,finish,seq,took\n0,w,k0,v1,1,3,1,2\n0,w,k0,v2,4,6,02,5\n";
    run_table(
        &rt,
        &[
            trace(
                "a number with a zero before it",
                (zero_before, JOURNAL),
                11,
                "trace history line 3\n",
            ),
            trace(
                "an empty journal file",
                (HISTORY, b""),
                11,
                "trace journal line 1\n",
            ),
            trace("two empty files", (b"", b""), 11, "trace history line 1\n"),
            trace(
                "a fault of the history before one of the journal file",
                (zero_before, b""),
                11,
                "trace history line 3\n",
            ),
            trace(
                "a line that does not end",
                (
                    HISTORY,
                    b"replica,serve,client,seq,start,key,op,value,stamp\n0,2,0,1,1,k0,w,v1,1\n0,5,0,2,4,k0,w,v2,4",
                ),
                11,
                "trace journal line 3\n",
            ),
            trace(
                "a generic history",
                (
                    b"client,op,key,value,start,finish\n0,w,k0,v1,1,3\n",
                    JOURNAL,
                ),
                11,
                "trace history line 1\n",
            ),
        ],
    )?;
    Ok(())
}

// A trace of two files with faults, that is refused before a line of them is looked at.
fn refused<'a>(
    shows: &'a str,
    words: &'a [&'a str],
    (shelf_fails, out_fails): (&'a [u32], &'a [u32]),
    (status, err): (u8, &'a str),
) -> Row<'a> {
    Row {
        words,
        shelf_fails,
        out_fails,
        ..trace(shows, (b"no header", b"no header"), status, err)
    }
}

#[test]
fn files_are_read_before_their_lines(rt: HostRuntime) -> Result<(), Fail> {
    let missing = (5, "missing: nosuch\n");
    let failed = (6, "read failed\n");
    run_table(
        &rt,
        &[
            refused("no history", &["trace", "nosuch", "c"], (&[], &[]), missing),
            refused("no journal", &["trace", "h", "nosuch"], (&[], &[]), missing),
            refused("no read of the history", WORDS, (&[2], &[]), failed),
            refused("no read of the journal", WORDS, (&[5], &[]), failed),
            refused(
                "other words",
                &["trace", "h"],
                (&[], &[]),
                (2, "words refused\n"),
            ),
            Row {
                out_fails: &[1],
                ..trace("no output", (HISTORY, JOURNAL), 7, "write failed\n")
            },
        ],
    )?;
    Ok(())
}

// The bytes that a line of the two files may hold, and some that none does.
const BYTES: &[u8] = b"0123456789,;\nkvrwp\r x\"\x00\xff";

// The text with another byte at this place.
fn with_byte(alloc: Global, text: &[u8], place: usize, byte: u8) -> Result<Vec<u8>, AllocError> {
    let mut changed = Vec::from_slice(alloc, text)?;
    if let Some(old) = changed.get_mut(place) {
        *old = byte;
    }
    Ok(changed)
}

// What a row answers.
fn answer_of<R: Threads + Sync + AllocGlobal>(rt: &R, row: &Row) -> Result<Answer, AllocError> {
    let alloc = rt.alloc();
    let words = words_of(alloc, row.words)?;
    let mut shelf = shelf_of(alloc, row)?;
    let mut out = sink_of(alloc, &[])?;
    let mut err = sink_of(alloc, &[])?;
    let status = run_offline(rt, alloc, &words, &mut shelf, &mut out, &mut err, &OpenGate);
    Ok(Answer { status, out, err })
}

// Whether these two files are a run of the two writes.
fn is_good<R: Threads + Sync + Abort + AllocGlobal>(
    rt: &R,
    files: (&[u8], &[u8]),
) -> Result<bool, AllocError> {
    let answer = answer_of(rt, &trace("a changed byte", files, 0, "good\n"))?;
    let status = answer.status;
    let good = answer.out.written() == b"good\n".as_slice();
    assert!(rt; matches!(status, 0 | 1 | 11), "status {status}");
    assert!(rt; good == (status == 0), "status {status}");
    Ok(good)
}

#[test]
fn a_change_of_one_byte_of_the_history_is_found(rt: HostRuntime) -> Result<(), Fail> {
    // The last call may finish at any ticket behind its reply: here at 7, 8 or 9 as well.
    let last_finish = HISTORY.len() - b"6,2,5\n".len();
    for place in 0..HISTORY.len() {
        for byte in BYTES {
            let changed = with_byte(rt.alloc(), HISTORY, place, *byte)?;
            let later = place == last_finish && matches!(*byte, b'7'..=b'9');
            let same = changed.as_slice() == HISTORY;
            let good = is_good(&rt, (&changed, JOURNAL))?;
            assert!(rt; good == (same || later), "byte {byte} at {place}");
        }
    }
    Ok(())
}

#[test]
fn a_change_of_one_byte_of_the_journal_is_found(rt: HostRuntime) -> Result<(), Fail> {
    for place in 0..JOURNAL.len() {
        for byte in BYTES {
            let changed = with_byte(rt.alloc(), JOURNAL, place, *byte)?;
            let same = changed.as_slice() == JOURNAL;
            let good = is_good(&rt, (HISTORY, &changed))?;
            assert!(rt; good == same, "byte {byte} at {place}");
        }
    }
    Ok(())
}

/// Reads the two files back that a run left on this shelf, with these options, and demands the line of the output.
pub fn demand_trace<R: Threads + Sync + Abort + AllocGlobal>(
    rt: &R,
    shelf: &MemoryShelf,
    options: &str,
    line: &str,
) -> Result<(), AllocError> {
    let alloc = rt.alloc();
    let (Some(history), Some(journal)) = (shelf.file(b"h"), shelf.file(b"j")) else {
        panic!(rt; "a file is missing")
    };
    let words = format!(in alloc; "trace h c {options}")?;
    let mut texts = Vec::new(alloc);
    for text in words.split(' ') {
        texts.push(text)?;
    }
    let status = if line == "good\n" { 0 } else { 1 };
    run_row(
        rt,
        &Row {
            words: texts.as_slice(),
            ..Row::check(options, history, journal, status, line)
        },
    )
}

// Runs the store with these options, and reads its files back with the same and with others, each with its line.
fn run_then_trace<R: Threads + Wait + Copy + Send + Sync + Abort + AllocGlobal + 'static>(
    rt: &R,
    options: &str,
    others: &[(&str, &str)],
) -> Result<(), AllocError> {
    let words = format!(in rt.alloc(); "bench h j {options}")?;
    let (answer, shelf) = call(rt, &BenchRow::of(options, &words), &OpenGate)?;
    assert!(rt; answer.status == 0, "{options}");
    demand_trace(rt, &shelf, options, "good\n")?;
    for (other, line) in others {
        demand_trace(rt, &shelf, other, line)?;
    }
    Ok(())
}

#[test]
fn runs_are_read_back(rt: HostRuntime) -> Result<(), Fail> {
    let (calls, counts, sent) = (
        "bad trace part 1\n",
        "bad trace part 3\n",
        "bad trace part 6\n",
    );
    run_then_trace(
        &rt,
        "--clients 1 --replicas 1 --calls 2 --keys 1 --writes 100",
        &[
            (
                "--clients 1 --replicas 1 --calls 2 --keys 1 --writes 100 --shards 3",
                "good\n",
            ),
            (
                "--clients 1 --replicas 1 --calls 3 --keys 1 --writes 100",
                calls,
            ),
            (
                "--clients 2 --replicas 1 --calls 2 --keys 1 --writes 100",
                calls,
            ),
            (
                "--clients 1 --replicas 1 --calls 2 --keys 1 --writes 0",
                calls,
            ),
            (
                "--clients 1 --replicas 2 --calls 2 --keys 1 --writes 100",
                sent,
            ),
            (
                "--clients 1 --replicas 2 --calls 2 --keys 1 --writes 100 --write-quorum 2",
                counts,
            ),
        ],
    )?;
    run_then_trace(
        &rt,
        "--clients 1 --replicas 1 --calls 1 --keys 1 --writes 0",
        &[(
            "--clients 1 --replicas 1 --calls 1 --keys 1 --writes 100",
            calls,
        )],
    )?;
    run_then_trace(
        &rt,
        "--clients 4 --calls 50 --seed 1",
        &[
            ("--clients 4 --calls 50 --seed 2", calls),
            ("--clients 4 --calls 50 --seed 1 --replicas 4", sent),
            ("--clients 4 --calls 50 --seed 1 --read-quorum 2", counts),
            ("--clients 4 --calls 50 --seed 1 --write-quorum 2", counts),
        ],
    )?;
    Ok(())
}
