//! `two` and `sides` over worked histories: their texts, and how they end where they are refused.

use crate::harness::{Row, run_row, run_table};
use std::alloc::AllocError;
use std::process::Abort;
use std::test::Fail;
use std::thread::Threads;

const HISTORY: &[u8] = b"client,op,key,value,start,finish\n0,w,x,a,1,2\n0,w,x,b,3,4\n1,r,x,a,7,9\n";

// A history, and what `two` and `sides` write of it.
#[derive(Clone, Copy)]
struct Measured<'a> {
    shows: &'a str,
    history: &'a [u8],
    two: &'a str,
    sides: &'a str,
}

// Runs `two h` and `sides h`, and demands their texts.
fn run_measures<R: Threads + Sync + Abort + AllocGlobal>(
    rt: &R,
    rows: &[Measured],
) -> Result<(), AllocError> {
    for measured in rows {
        let two = Row::audit(measured.shows, measured.history, measured.two);
        let sides = Row::audit(measured.shows, measured.history, measured.sides);
        run_row(
            rt,
            &Row {
                words: &["two", "h"],
                ..two
            },
        )?;
        run_row(
            rt,
            &Row {
                words: &["sides", "h"],
                ..sides
            },
        )?;
    }
    Ok(())
}

#[test]
fn keys_that_are_late_are_measured(rt: HostRuntime) -> Result<(), Fail> {
    run_measures(
        &rt,
        &[
            Measured {
                shows: "a read three ticks stale",
                history: HISTORY,
                two: "key x two 0\norder 0 1 2 3\ntotal keys 1 zero 1 worst 0\n",
                sides: "key x sides 1 pair 1 2 2 3\norder 0 2 1 3\ntotal keys 1 zero 0 worst 1\n",
            },
            Measured {
                shows: "three writes and a read of the first",
                history: b"client,op,key,value,start,finish\n0,w,x,a,1,2\n0,w,x,b,3,4\n0,w,x,c,5,6\n1,r,x,a,9,10\n",
                two: "key x two 3\norder 0 1 2 4 3\nstuck 3 2 1 0\ntry 3 1 hard 1 2\ntry 2 hard 2 3\ntry 1 hard 1 3\ntry 0 hard 0 3\ntotal keys 1 zero 0 worst 3\n",
                sides: "key x sides 2 pair 1 3 3 4\norder 0 2 3 1 4\ntotal keys 1 zero 0 worst 2\n",
            },
            Measured {
                shows: "two overlapping writes, one after them, and reads of both",
                history: b"client,op,key,value,start,finish\n0,w,x,z,1,8\n1,w,x,y,2,9\n2,w,x,q,10,11\n3,r,x,y,12,13\n4,r,x,z,12,13\n",
                two: "key x two 1\norder 0 1 2 4 5 3\nstuck 3 2 1 0\ntry 3 soft 3 5 4\ntry 2 hard 2 3\ntry 1 hard 1 3\ntry 0 hard 0 3\ntotal keys 1 zero 0 worst 1\n",
                sides: "key x sides 2 pair 1 4 2 5\norder 0 3 1 5 2 4\ntotal keys 1 zero 0 worst 2\n",
            },
            Measured {
                shows: "three writes, and reads of the first two",
                history: b"client,op,key,value,start,finish\n0,w,x,a,1,2\n0,w,x,b,3,4\n0,w,x,c,5,6\n1,r,x,a,9,10\n2,r,x,b,12,13\n",
                two: "key x two 3\norder 0 1 2 4 3 5\nstuck 3 2 1 0\ntry 3 soft 3 5 4\ntry 2 hard 2 3\ntry 1 hard 1 3\ntry 0 hard 0 3\ntotal keys 1 zero 0 worst 3\n",
                sides: "key x sides 3 pair 1 5 2 4\norder 0 3 1 4 2 5\ntotal keys 1 zero 0 worst 3\n",
            },
            Measured {
                shows: "a read of no value after a write",
                history: b"client,op,key,value,start,finish\n0,r,x,,1,2\n1,w,x,a,3,4\n0,r,x,,6,7\n",
                two: "key x two 0\norder 0 1 2 3\ntotal keys 1 zero 1 worst 0\n",
                sides: "key x sides 1 pair 0 2 2 3\norder 0 1 3 2\ntotal keys 1 zero 0 worst 1\n",
            },
        ],
    )?;
    Ok(())
}

#[test]
fn keys_without_a_delta_have_sides(rt: HostRuntime) -> Result<(), Fail> {
    run_measures(
        &rt,
        &[
            Measured {
                shows: "a read one tick before its write",
                history: b"client,op,key,value,start,finish\n0,r,x,a,1,2\n1,w,x,a,3,4\n",
                two: "key x infinite 1\ntotal keys 1 zero 0 worst none\n",
                sides: "key x sides 1 early 1\norder 0 2 1\ntotal keys 1 zero 0 worst 1\n",
            },
            Measured {
                shows: "a read four ticks before its write",
                history: b"client,op,key,value,start,finish\n0,r,x,a,1,2\n1,w,x,a,6,7\n",
                two: "key x infinite 1\ntotal keys 1 zero 0 worst none\n",
                sides: "key x sides 2 early 1\norder 0 2 1\ntotal keys 1 zero 0 worst 2\n",
            },
            Measured {
                shows: "a read that is early, but not just below",
                history: b"client,op,key,value,start,finish\n0,w,x,a,1,2\n0,w,x,b,3,4\n1,r,x,a,12,13\n2,r,x,c,5,6\n3,w,x,c,9,10\n",
                two: "key x infinite 4\ntotal keys 1 zero 0 worst none\n",
                sides: "key x sides 3 pair 1 5 4 3\norder 0 2 1 3 5 4\ntotal keys 1 zero 0 worst 3\n",
            },
            Measured {
                shows: "faults, a read of no value, and a read before its write, of four keys",
                history: b"client,op,key,value,start,finish\n0,w,x,a,1,2\n0,w,y,b,3,4\n1,w,y,b,5,6\n1,r,x,c,7,8\n0,r,z,,1,2\n1,w,z,a,3,4\n0,r,z,,6,7\n0,r,w,a,1,2\n1,w,w,a,3,4\n",
                two: "key x unmatched 4\nkey y duplicate 3\nkey z two 0\norder 0 5 6 7\nkey w infinite 8\ntotal keys 4 zero 1 worst 0\n",
                sides: "key x unmatched 4\nkey y duplicate 3\nkey z sides 1 pair 0 6 6 7\norder 0 5 7 6\nkey w sides 1 early 8\norder 0 9 8\ntotal keys 4 zero 0 worst 1\n",
            },
        ],
    )?;
    Ok(())
}

#[test]
fn other_histories_are_measured(rt: HostRuntime) -> Result<(), Fail> {
    run_measures(
        &rt,
        &[
            Measured {
                shows: "no key",
                history: b"client,op,key,value,start,finish\n",
                two: "total keys 0 zero 0 worst none\n",
                sides: "total keys 0 zero 0 worst none\n",
            },
            Measured {
                shows: "an open write whose value was read",
                history: b"client,op,key,value,start,finish\n0,w,x,a,1,\n1,r,x,a,7,8\n",
                two: "key x two 0\norder 0 1 2\ntotal keys 1 zero 1 worst 0\n",
                sides: "key x sides 0\norder 0 1 2\ntotal keys 1 zero 1 worst 0\n",
            },
            Measured {
                shows: "nanoseconds since 1970",
                history: b"key,op,node,value,client,start,finish\r\n\"user,7\",write,n1,v1,0,1700000000000000000,1700000000000400000\r\n\"user,7\",write,n2,v2,1,1700000000000500000,1700000000000900000\r\n\"user,7\",read,n3,v1,2,1700000000002000000,1700000000002300000\r\n",
                two: "key user,7 two 0\norder 0 1 2 3\ntotal keys 1 zero 1 worst 0\n",
                sides: "key user,7 sides 50000 pair 1 2 2 3\norder 0 2 1 3\ntotal keys 1 zero 0 worst 50000\n",
            },
            Measured {
                shows: "slack of a stale read",
                history: b"client,op,key,value,start,finish,slack\n0,w,x,a,1,2,\n0,w,x,b,3,4,\n1,r,x,a,7,9,2\n",
                two: "key x two 0\norder 0 1 2 3\ntotal keys 1 zero 1 worst 0\n",
                sides: "key x sides 1 pair 1 2 2 3\norder 0 2 1 3\ntotal keys 1 zero 0 worst 1\n",
            },
        ],
    )?;
    Ok(())
}

// A row with these words, that is refused with this status and line.
fn refused<'a>(shows: &'a str, words: &'a [&'a str], status: u8, err: &'a str) -> Row<'a> {
    Row {
        words,
        ..Row::refused(shows, HISTORY, status, err)
    }
}

#[test]
fn a_measure_takes_one_file(rt: HostRuntime) -> Result<(), Fail> {
    let line = "words refused\n";
    run_table(
        &rt,
        &[
            refused("no file", &["two"], 2, line),
            refused("sides of no file", &["sides"], 2, line),
            refused("two files", &["two", "h", "c"], 2, line),
            refused("sides of two files", &["sides", "h", "c"], 2, line),
            refused("an empty name", &["two", ""], 2, line),
            refused("sides of an empty name", &["sides", ""], 2, line),
            refused("workers", &["two", "h", "--workers", "2"], 2, line),
            refused(
                "sides with workers",
                &["sides", "h", "--workers", "2"],
                2,
                line,
            ),
            refused("a certificate", &["two", "h", "--cert", "c"], 2, line),
            refused(
                "sides with a certificate",
                &["sides", "h", "--cert", "c"],
                2,
                line,
            ),
            refused("a mode that is not there", &["lives", "h"], 2, line),
        ],
    )?;
    Ok(())
}

#[test]
fn refusals_of_measures_are_told(rt: HostRuntime) -> Result<(), Fail> {
    let two = refused(
        "no history for two",
        &["two", "h"],
        3,
        "history: no header\n",
    );
    let sides = refused(
        "no history for sides",
        &["sides", "h"],
        3,
        "history: no header\n",
    );
    let missing = "missing: nosuch\n";
    run_table(
        &rt,
        &[
            Row {
                history: b"",
                ..two
            },
            Row {
                history: b"",
                ..sides
            },
            refused("a missing file", &["two", "nosuch"], 5, missing),
            refused("a missing file for sides", &["sides", "nosuch"], 5, missing),
        ],
    )?;
    let two = refused("a failed read", &["two", "h"], 6, "read failed\n");
    let sides = refused(
        "a failed read for sides",
        &["sides", "h"],
        6,
        "read failed\n",
    );
    run_table(
        &rt,
        &[
            Row {
                shelf_fails: &[2],
                ..two
            },
            Row {
                shelf_fails: &[2],
                ..sides
            },
        ],
    )?;
    let two = refused("a failed write", &["two", "h"], 7, "write failed\n");
    let sides = refused(
        "a failed write of sides",
        &["sides", "h"],
        7,
        "write failed\n",
    );
    run_table(
        &rt,
        &[
            Row {
                out_fails: &[1],
                ..two
            },
            Row {
                out_fails: &[1],
                ..sides
            },
        ],
    )?;
    Ok(())
}
