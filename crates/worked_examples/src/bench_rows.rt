//! Runs of the store: what their two files and their report hold, which runs are refused, and the gate.

use crate::gates::{CountingGate, Meeting};
use crate::harness::Row;
use crate::runs::{BenchRow, call, run_benches, run_past, run_with_crew};
use audit_ports::OpenGate;
use std::test::Fail;

// One client and one replica take turns, so what is written is the same each time.
pub const WRITES: &str = "bench h j --clients 1 --replicas 1 --calls 2 --keys 1 --writes 100";

pub const WRITES_HISTORY: &str = "client,op,key,value,start,finish,seq,took
0,w,k0,v1,1,3,1,2
0,w,k0,v2,4,6,2,5
";

pub const WRITES_JOURNAL: &str = "replica,serve,client,seq,start,key,op,value,stamp
0,2,0,1,1,k0,w,v1,1
0,5,0,2,4,k0,w,v2,4
";

const WRITES_REPORT: &str = "key k0 operations 2 delta 0 two yes
total keys 1 operations 2 skipped 0 duplicate 0 unmatched 0 infinite 0 atomic 1 two 1 worst 0
";

/// A run of the two writes by other words.
pub fn writes<'a>(shows: &'a str, words: &'a str) -> BenchRow<'a> {
    BenchRow {
        out: WRITES_REPORT,
        history: Some(WRITES_HISTORY),
        journal: Some(WRITES_JOURNAL),
        ..BenchRow::of(shows, words)
    }
}

#[test]
fn runs_are_recorded(rt: HostRuntime) -> Result<(), Fail> {
    run_benches(
        &rt,
        &[
            writes("two writes", WRITES),
            BenchRow {
                before: Some("an older text, which is longer than what is written"),
                ..writes("older files are replaced", WRITES)
            },
            writes(
                "three shards",
                "bench h j --clients 1 --replicas 1 --calls 2 --keys 1 --writes 100 --shards 3",
            ),
            writes(
                "options first, and numbers with zeros",
                "--clients=01 --replicas=1 --calls=002 --keys=1 --writes=100 --read-quorum=1 --write-quorum=1 --seed=1 --workers=64 bench h j",
            ),
            BenchRow {
                out: "key k0 operations 1 delta 0 two yes\ntotal keys 1 operations 1 skipped 0 duplicate 0 unmatched 0 infinite 0 atomic 1 two 1 worst 0\n",
                history: Some("client,op,key,value,start,finish,seq,took\n0,r,k0,,1,3,1,2\n"),
                journal: Some(
                    "replica,serve,client,seq,start,key,op,value,stamp\n0,2,0,1,1,k0,r,,0\n",
                ),
                ..BenchRow::of(
                    "a read",
                    "bench h j --clients 1 --replicas 1 --calls 1 --keys 1 --writes 0",
                )
            },
        ],
    )?;
    Ok(())
}

// The two writes over so many replicas, of which these starts are refused.
fn with_refused<'a>(
    shows: &'a str,
    words: &'a str,
    start_fails: &'a [u32],
    err: &'a str,
) -> BenchRow<'a> {
    BenchRow {
        start_fails,
        ..BenchRow::refused(shows, words, 9, err)
    }
}

#[test]
fn a_replica_that_is_not_started_is_named(rt: HostRuntime) -> Result<(), Fail> {
    let older = Some("an older text");
    let two_replicas = "bench h j --replicas 2";
    let rows = [
        with_refused("the only replica", WRITES, &[1], "replica 0 not started\n"),
        with_refused(
            "the first of two",
            two_replicas,
            &[1],
            "replica 0 not started\n",
        ),
        with_refused("the second", two_replicas, &[2], "replica 1 not started\n"),
        with_refused(
            "the third of three",
            "bench h j",
            &[3],
            "replica 2 not started\n",
        ),
        with_refused(
            "both of two",
            two_replicas,
            &[1, 2],
            "replica 0 not started\n",
        ),
        BenchRow {
            before: older,
            history: older,
            journal: older,
            ..with_refused(
                "older files stay",
                two_replicas,
                &[2],
                "replica 1 not started\n",
            )
        },
        BenchRow {
            err_fails: &[1],
            ..with_refused("the line is not written", two_replicas, &[2], "")
        },
    ];
    for row in &rows {
        let gate = CountingGate::new();
        run_past(&rt, row, &gate)?;
        let shows = row.shows;
        assert!(rt; gate.entered() == 0, "{shows}: a call was made");
    }
    run_past(
        &rt,
        &BenchRow {
            start_fails: &[2],
            ..writes("no second start is made", WRITES)
        },
        &OpenGate,
    )?;
    Ok(())
}

// The two writes, where some calls of the shelf or of the output fail, and the two files afterwards.
fn failing_writes<'a>(
    shows: &'a str,
    (shelf_fails, out_fails): (&'a [u32], &'a [u32]),
    out: &'a str,
    (history, journal): (Option<&'a str>, Option<&'a str>),
) -> BenchRow<'a> {
    BenchRow {
        shelf_fails,
        out_fails,
        out,
        history,
        journal,
        ..BenchRow::refused(shows, WRITES, 7, "write failed\n")
    }
}

const BOTH: (Option<&str>, Option<&str>) = (Some(WRITES_HISTORY), Some(WRITES_JOURNAL));

#[test]
fn failed_writes_leave_a_part(rt: HostRuntime) -> Result<(), Fail> {
    let whole = Some(WRITES_HISTORY);
    run_benches(
        &rt,
        &[
            failing_writes("the history is not created", (&[1], &[]), "", (None, None)),
            failing_writes("it is not written", (&[2], &[]), "", (Some(""), None)),
            failing_writes("it is not finished", (&[3], &[]), "", (whole, None)),
            failing_writes("the journal is not created", (&[4], &[]), "", (whole, None)),
            failing_writes("it is not written", (&[5], &[]), "", (whole, Some(""))),
            failing_writes("it is not finished", (&[6], &[]), "", BOTH),
            failing_writes("the report is not written", (&[], &[1]), "", BOTH),
            failing_writes("it is not flushed", (&[], &[2]), WRITES_REPORT, BOTH),
            BenchRow {
                shelf_fails: &[7],
                out_fails: &[3],
                ..writes("no further call is made", WRITES)
            },
            BenchRow {
                err: "",
                err_fails: &[1],
                ..failing_writes("the line is not written", (&[], &[1]), "", BOTH)
            },
        ],
    )?;
    Ok(())
}

#[test]
fn other_words_are_refused(rt: HostRuntime) -> Result<(), Fail> {
    let wrong = [
        "bench",
        "bench h",
        "bench h h",
        "bench h ",
        "bench h j k",
        "bench h j --clients 0",
        "bench h j --clients 33",
        "bench h j --calls 0",
        "bench h j --calls 50001",
        "bench h j --clients 32 --calls 3126",
        "bench h j --replicas 0",
        "bench h j --replicas 8",
        "bench h j --keys 0",
        "bench h j --keys 1001",
        "bench h j --read-quorum 0",
        "bench h j --read-quorum 4",
        "bench h j --write-quorum 0",
        "bench h j --write-quorum 4",
        "bench h j --replicas 1 --write-quorum 2",
        "bench h j --writes 101",
        "bench h j --seed 18446744073709551616",
        "bench h j --shards 0",
        "bench h j --shards 17",
        "bench h j --workers 0",
        "bench h j --workers 65",
        "bench h j --calls +2",
        "bench h j --calls 000000000000000000002",
        "bench h j --calls",
        "bench h j --calls 2 --calls 2",
        "bench h j --cert c",
        "audit h --seed 1",
        "check h j --shards 1",
        "gen 1 1 1 --keys 1",
        "trial 1 1 1 --clients 1",
    ];
    for words in wrong {
        run_past(
            &rt,
            &BenchRow::refused("other words", words, 2, "words refused\n"),
            &OpenGate,
        )?;
    }
    Ok(())
}

#[test]
fn clients_run_side_by_side(rt: HostRuntime) -> Result<(), Fail> {
    // The calls of a client are numbered behind those of the clients before it.
    let gate = Meeting::of(1, 4);
    let row = BenchRow::of("two clients", "bench h j --clients 2 --calls 3");
    let (answer, _) = call(&rt, &row, &gate)?;
    assert!(rt; answer.status == 0);
    assert!(rt;
        gate.met(),
        "the first call of the second client was made meanwhile"
    );
    Ok(())
}

#[test]
fn the_report_is_that_of_the_history(rt: HostRuntime) -> Result<(), Fail> {
    let row = BenchRow::of(
        "four clients",
        "bench h j --clients 4 --calls 50 --keys 2 --workers 2",
    );
    let (answer, shelf) = call(&rt, &row, &OpenGate)?;
    assert!(rt; answer.status == 0);
    let Some(history) = shelf.file(b"h") else {
        panic!(rt; "no history")
    };
    let report = str::from_utf8(answer.out.written())?;
    run_with_crew(&rt, &Row::audit("its history", history, report))?;
    Ok(())
}

const HISTORY: &[u8] = b"client,op,key,value,start,finish\n0,w,x,a,1,3\n1,r,x,a,4,6\n";

const REPORT: &str =
    "key x operations 2 delta 0 two yes\ntotal keys 1 operations 2 skipped 0 duplicate 0 unmatched 0 infinite 0 atomic 1 two 1 worst 0\n";

const CERT: &[u8] = b"stale-cert 1\nkey 1\ndelta 0\norder 0 1 2\ntwo yes\norder 0 1 2\nend\n";

const BAD: &[u8] = b"stale-cert 1\nkey 1\ndelta 0\norder 0 1\ntwo yes\norder 0 1 2\nend\n";

#[test]
fn other_modes_give_the_same(rt: HostRuntime) -> Result<(), Fail> {
    let rows = [
        Row::audit("an audit", HISTORY, REPORT),
        Row::certify("its certificate", HISTORY, REPORT, CERT),
        Row::check("a check", HISTORY, CERT, 0, "good\n"),
        Row::check(
            "an order with a record missing",
            HISTORY,
            BAD,
            1,
            "bad key 1 rule 2 record 2\n",
        ),
        Row::check(
            "no certificate",
            HISTORY,
            b"",
            4,
            "certificate line 1: line\n",
        ),
        Row::refused("no history", b"", 3, "history: no header\n"),
        Row {
            words: &["audit", "nosuch"],
            ..Row::refused("no such file", HISTORY, 5, "missing: nosuch\n")
        },
        Row {
            shelf_fails: &[2],
            ..Row::refused("a read fails", HISTORY, 6, "read failed\n")
        },
        Row {
            out_fails: &[1],
            ..Row::refused("the report is not written", HISTORY, 7, "write failed\n")
        },
        Row::words(
            "a generated history",
            &["gen", "1", "1", "1"],
            "client,op,key,value,start,finish\n1,w,k0,v1,10,18\n",
        ),
        Row::words(
            "its last line",
            &["trial", "1", "1", "1"],
            "total keys 1 operations 1 skipped 0 duplicate 0 unmatched 0 infinite 0 atomic 1 two 1 worst 0\n",
        ),
    ];
    for row in &rows {
        run_with_crew(&rt, row)?;
    }
    Ok(())
}
