//! `live` over worked histories: its lines, and how it ends where it is refused.

use crate::harness::{Row, run_row, run_table};
use std::alloc::AllocError;
use std::process::Abort;
use std::test::Fail;
use std::thread::Threads;

// `live h` of the header and these lines.
fn live<'a>(shows: &'a str, history: &'a [u8], out: &'a str) -> Row<'a> {
    Row {
        words: &["live", "h"],
        ..Row::audit(shows, history, out)
    }
}

#[test]
fn scores_rise_while_operations_come_in(rt: HostRuntime) -> Result<(), Fail> {
    run_table(
        &rt,
        &[
            live(
                "a read three ticks stale",
                b"client,op,key,value,start,finish\n0,w,x,a,1,2\n0,w,x,b,3,4\n1,r,x,a,7,9\n",
                "key x record 3 delta 3\ntotal lines 1\n",
            ),
            live(
                "reads that wait for their writes",
                b"client,op,key,value,start,finish\n0,w,x,a,1,10\n1,w,x,b,1,10\n2,r,x,a,2,3\n2,r,x,b,4,5\n2,r,x,a,6,7\n",
                "key x record 2 delta 1\ntotal lines 1\n",
            ),
            live(
                "two stale reads, and a read before its write",
                b"client,op,key,value,start,finish\n0,w,x,a,1,2\n0,w,x,b,3,4\n1,r,x,a,6,7\n0,w,x,c,8,9\n1,r,x,a,12,13\n2,r,x,b,12,13\n2,r,x,d,1,3\n0,w,x,d,14,15\n",
                "key x record 3 delta 2\nkey x record 5 delta 8\nkey x record 8 infinite\ntotal lines 3\n",
            ),
            live(
                "two operations that finish together",
                b"client,op,key,value,start,finish\n0,w,x,b,3,4\n0,w,x,a,1,2\n1,r,x,a,5,7\n0,w,x,c,6,7\n",
                "key x record 3 delta 1\ntotal lines 1\n",
            ),
            live(
                "two stale reads of two values",
                b"client,op,key,value,start,finish\n0,w,x,a,1,2\n0,w,x,b,3,4\n0,w,x,c,5,6\n1,r,x,a,9,10\n2,r,x,b,12,13\n",
                "key x record 4 delta 5\nkey x record 5 delta 6\ntotal lines 2\n",
            ),
            live(
                "a read of no value after a write",
                b"client,op,key,value,start,finish\n0,r,x,,1,2\n1,w,x,a,3,4\n0,r,x,,6,7\n",
                "key x record 3 delta 2\ntotal lines 1\n",
            ),
            live(
                "slack of a stale read",
                b"client,op,key,value,start,finish,slack\n0,w,x,a,1,2,\n0,w,x,b,3,4,\n1,r,x,a,7,9,2\n",
                "key x record 3 delta 1\ntotal lines 1\n",
            ),
        ],
    )?;
    Ok(())
}

#[test]
fn faults_and_waiting_reads_are_told(rt: HostRuntime) -> Result<(), Fail> {
    run_table(
        &rt,
        &[
            live(
                "no key",
                b"client,op,key,value,start,finish\n",
                "total lines 0\n",
            ),
            live(
                "a read before its write",
                b"client,op,key,value,start,finish\n0,r,x,a,1,2\n1,w,x,a,3,4\n",
                "key x record 2 infinite\ntotal lines 1\n",
            ),
            live(
                "a read of a value that no write wrote",
                b"client,op,key,value,start,finish\n0,r,x,z,1,2\n",
                "key x waiting 1\ntotal lines 1\n",
            ),
            live(
                "an open write, which comes last",
                b"client,op,key,value,start,finish\n0,w,x,a,1,\n1,r,x,,5,6\n2,r,x,a,7,8\n3,r,x,a,9,\n",
                "total lines 0\n",
            ),
            live(
                "a name that is escaped",
                b"client,op,key,value,start,finish\n0,r,a b,z,1,2\n",
                "key a\\x20b waiting 1\ntotal lines 1\n",
            ),
            live(
                "four keys: a waiting read, two writes of a value, a read of no value, and a read before its write",
                b"client,op,key,value,start,finish\n0,w,x,a,1,2\n0,w,y,b,3,4\n1,w,y,b,5,6\n1,r,x,c,7,8\n0,r,z,,1,2\n1,w,z,a,3,4\n0,r,z,,6,7\n0,r,w,a,1,2\n1,w,w,a,3,4\n",
                "key x waiting 1\nkey y duplicate 3\nkey z record 7 delta 2\nkey w record 9 infinite\ntotal lines 4\n",
            ),
        ],
    )?;
    Ok(())
}

// Runs `live h` where these calls of the shelf and of the output fail, and demands the refusal.
fn run_refused<R: Threads + Sync + Abort + AllocGlobal>(
    rt: &R,
    (shows, history): (&str, &[u8]),
    (shelf_fails, out_fails): (&[u32], &[u32]),
    (status, err): (u8, &str),
) -> Result<(), AllocError> {
    run_row(
        rt,
        &Row {
            words: &["live", "h"],
            shelf_fails,
            out_fails,
            ..Row::refused(shows, history, status, err)
        },
    )
}

#[test]
fn refusals_of_live_are_told(rt: HostRuntime) -> Result<(), Fail> {
    let history = b"client,op,key,value,start,finish\n0,w,x,a,1,2\n".as_slice();
    run_refused(
        &rt,
        ("no history", b""),
        (&[], &[]),
        (3, "history: no header\n"),
    )?;
    run_refused(
        &rt,
        ("a failed read", history),
        (&[2], &[]),
        (6, "read failed\n"),
    )?;
    run_refused(
        &rt,
        ("a failed write", history),
        (&[], &[1]),
        (7, "write failed\n"),
    )?;
    let missing = Row::refused("a missing file", history, 5, "missing: nosuch\n");
    let words = Row::refused("other words", history, 2, "words refused\n");
    run_table(
        &rt,
        &[
            Row {
                words: &["live", "nosuch"],
                ..missing
            },
            Row {
                words: &["live", "h", "c"],
                ..words
            },
            Row {
                words: &["live", "h", "--workers", "2"],
                ..words
            },
        ],
    )?;
    Ok(())
}
