//! What is said of each key: the report, and the certificate that shows it.

use crate::harness::{Row, run_row, run_table, run_then_check};
use std::alloc::AllocError;
use std::process::Abort;
use std::test::Fail;
use std::thread::Threads;

// Runs each row by 1, 2 and 64 workers, and checks each certificate.
fn run_by_workers<R: Threads + Sync + Abort + AllocGlobal>(
    rt: &R,
    rows: &[Row],
) -> Result<(), AllocError> {
    for workers in ["1", "2", "64"] {
        for row in rows {
            let words = ["audit", "h", "--cert", "c", "--workers", workers];
            run_row(
                rt,
                &Row {
                    words: &words,
                    ..*row
                },
            )?;
        }
    }
    for row in rows {
        run_then_check(rt, row)?;
    }
    Ok(())
}

#[test]
fn faults_of_keys_are_named(rt: HostRuntime) -> Result<(), Fail> {
    run_by_workers(
        &rt,
        &[
            Row::certify(
                "no key",
                b"client,op,key,value,start,finish\n",
                "total keys 0 operations 0 skipped 0 duplicate 0 unmatched 0 infinite 0 atomic 0 two 0 worst none\n",
                b"stale-cert 1\nend\n",
            ),
            Row::certify(
                "a read that ends before its write starts",
                b"client,op,key,value,start,finish\n0,r,x,a,1,2\n1,w,x,a,3,4\n",
                "key x operations 2 infinite 1 two no\ntotal keys 1 operations 2 skipped 0 duplicate 0 unmatched 0 infinite 1 atomic 0 two 0 worst none\n",
                b"stale-cert 1\nkey 1\ninfinite 1\nend\n",
            ),
            Row::certify(
                "a read of a value that nobody wrote",
                b"client,op,key,value,start,finish\n0,r,x,z,1,2\n",
                "key x operations 1 unmatched 1\ntotal keys 1 operations 1 skipped 0 duplicate 0 unmatched 1 infinite 0 atomic 0 two 0 worst none\n",
                b"stale-cert 1\nkey 1\nunmatched 1\nend\n",
            ),
            Row::certify(
                "a value written twice, and a key that is judged",
                b"client,op,key,value,start,finish\n0,w,x,a,1,2\n0,w,x,a,3,4\n0,w,y,b,5,6\n",
                "key x operations 2 duplicate 2\nkey y operations 1 delta 0 two yes\ntotal keys 2 operations 3 skipped 0 duplicate 1 unmatched 0 infinite 0 atomic 1 two 1 worst 0\n",
                b"stale-cert 1\nkey 1\nduplicate 2\nkey 2\ndelta 0\norder 0 3\ntwo yes\norder 0 3\nend\n",
            ),
            Row::certify(
                "three keys of a real-looking file, with carriage returns, quotes and a column that is not looked at",
                b"key,op,node,value,client,start,finish\r\n\"user,7\",write,n1,v1,0,1700000000000000000,1700000000000400000\r\n\"user,7\",write,n2,v2,1,1700000000000500000,1700000000000900000\r\n\"user,7\",read,n3,v1,2,1700000000002000000,1700000000002300000\r\nx,w,n1,a,0,1,2\r\nx,w,n1,a,0,3,4\r\ny,w,n1,b,0,5,6\r\n",
                "key user,7 operations 3 delta 1100000 pair 1 2 two yes\nkey x operations 2 duplicate 5\nkey y operations 1 delta 0 two yes\ntotal keys 3 operations 6 skipped 0 duplicate 1 unmatched 0 infinite 0 atomic 1 two 2 worst 1100000\n",
                b"stale-cert 1\nkey 1\ndelta 1100000\norder 0 1 3 2\npair 1 2 2 3\ntwo yes\norder 0 1 2 3\nkey 2\nduplicate 5\nkey 3\ndelta 0\norder 0 6\ntwo yes\norder 0 6\nend\n",
            ),
        ],
    )?;
    Ok(())
}

#[test]
fn keys_are_judged(rt: HostRuntime) -> Result<(), Fail> {
    run_by_workers(
        &rt,
        &[
            Row::certify(
                "a write and a read of it",
                b"client,op,key,value,start,finish\n0,w,x,a,1,3\n1,r,x,a,4,6\n",
                "key x operations 2 delta 0 two yes\ntotal keys 1 operations 2 skipped 0 duplicate 0 unmatched 0 infinite 0 atomic 1 two 1 worst 0\n",
                b"stale-cert 1\nkey 1\ndelta 0\norder 0 1 2\ntwo yes\norder 0 1 2\nend\n",
            ),
            Row::certify(
                "a read three ticks stale",
                b"client,op,key,value,start,finish\n0,w,x,a,1,2\n0,w,x,b,3,4\n1,r,x,a,7,9\n",
                "key x operations 3 delta 3 pair 1 2 two yes\ntotal keys 1 operations 3 skipped 0 duplicate 0 unmatched 0 infinite 0 atomic 0 two 1 worst 3\n",
                b"stale-cert 1\nkey 1\ndelta 3\norder 0 1 3 2\npair 1 2 2 3\ntwo yes\norder 0 1 2 3\nend\n",
            ),
            Row::certify(
                "three writes and a read of the first",
                b"client,op,key,value,start,finish\n0,w,x,a,1,2\n0,w,x,b,3,4\n0,w,x,c,5,6\n1,r,x,a,9,10\n",
                "key x operations 4 delta 5 pair 1 2 two no\ntotal keys 1 operations 4 skipped 0 duplicate 0 unmatched 0 infinite 0 atomic 0 two 0 worst 5\n",
                b"stale-cert 1\nkey 1\ndelta 5\norder 0 1 4 2 3\npair 1 2 2 4\ntwo no\nstuck 3 2 1 0\ntry 3 1 hard 1 2\ntry 2 hard 2 3\ntry 1 hard 1 3\ntry 0 hard 0 3\nend\n",
            ),
            Row::certify(
                "equal ticks are concurrent",
                b"client,op,key,value,start,finish\n0,w,x,a,1,2\n1,w,x,b,2,3\n2,r,x,a,3,4\n",
                "key x operations 3 delta 0 two yes\ntotal keys 1 operations 3 skipped 0 duplicate 0 unmatched 0 infinite 0 atomic 1 two 1 worst 0\n",
                b"stale-cert 1\nkey 1\ndelta 0\norder 0 2 1 3\ntwo yes\norder 0 1 3 2\nend\n",
            ),
            Row::certify(
                "a backward zone before a forward one that begins with it",
                b"client,op,key,value,start,finish\n0,w,x,a,1,2\n1,w,x,b,2,3\n2,r,x,a,4,5\n",
                "key x operations 3 delta 0 two yes\ntotal keys 1 operations 3 skipped 0 duplicate 0 unmatched 0 infinite 0 atomic 1 two 1 worst 0\n",
                b"stale-cert 1\nkey 1\ndelta 0\norder 0 2 1 3\ntwo yes\norder 0 2 1 3\nend\n",
            ),
            Row::certify(
                "a backward zone inside a forward one",
                b"client,op,key,value,start,finish\n0,w,x,a,1,10\n1,w,x,b,1,10\n2,r,x,a,2,3\n2,r,x,b,4,5\n2,r,x,a,6,7\n",
                "key x operations 5 delta 1 pair 1 2 two yes\ntotal keys 1 operations 5 skipped 0 duplicate 0 unmatched 0 infinite 0 atomic 0 two 1 worst 1\n",
                b"stale-cert 1\nkey 1\ndelta 1\norder 0 2 4 1 3 5\npair 3 4 4 5\ntwo yes\norder 0 1 3 2 4 5\nend\n",
            ),
            Row::certify(
                "a read of the initial value",
                b"client,op,key,value,start,finish\n0,r,x,,1,2\n1,w,x,a,3,4\n0,r,x,,6,7\n",
                "key x operations 3 delta 2 pair 0 2 two yes\ntotal keys 1 operations 3 skipped 0 duplicate 0 unmatched 0 infinite 0 atomic 0 two 1 worst 2\n",
                b"stale-cert 1\nkey 1\ndelta 2\norder 0 1 3 2\npair 0 2 2 3\ntwo yes\norder 0 1 2 3\nend\n",
            ),
            Row::certify(
                "an open write, and a skipped read",
                b"client,op,key,value,start,finish\n0,w,x,a,1,\n1,r,x,,5,6\n2,r,x,a,7,8\n3,r,x,a,9,\n",
                "key x operations 3 delta 0 two yes\ntotal keys 1 operations 3 skipped 1 duplicate 0 unmatched 0 infinite 0 atomic 1 two 1 worst 0\n",
                b"stale-cert 1\nkey 1\ndelta 0\norder 0 2 1 3\ntwo yes\norder 0 2 1 3\nend\n",
            ),
            Row::certify(
                "three concurrent writes and two stale reads",
                b"client,op,key,value,start,finish\n0,w,x,z,1,8\n1,w,x,y,2,9\n2,w,x,q,3,10\n3,r,x,y,12,13\n4,r,x,z,12,13\n",
                "key x operations 5 delta 3 pair 1 2 two yes\ntotal keys 1 operations 5 skipped 0 duplicate 0 unmatched 0 infinite 0 atomic 0 two 1 worst 3\n",
                b"stale-cert 1\nkey 1\ndelta 3\norder 0 3 1 5 2 4\npair 1 4 2 5\ntwo yes\norder 0 3 1 2 4 5\nend\n",
            ),
            Row::certify(
                "the same with a later third write",
                b"client,op,key,value,start,finish\n0,w,x,z,1,8\n1,w,x,y,2,9\n2,w,x,q,10,11\n3,r,x,y,12,13\n4,r,x,z,12,13\n",
                "key x operations 5 delta 3 pair 1 2 two no\ntotal keys 1 operations 5 skipped 0 duplicate 0 unmatched 0 infinite 0 atomic 0 two 0 worst 3\n",
                b"stale-cert 1\nkey 1\ndelta 3\norder 0 1 5 2 4 3\npair 1 4 2 5\ntwo no\nstuck 3 2 1 0\ntry 3 soft 3 5 4\ntry 2 hard 2 3\ntry 1 hard 1 3\ntry 0 hard 0 3\nend\n",
            ),
        ],
    )?;
    Ok(())
}

#[test]
fn slack_makes_operations_concurrent(rt: HostRuntime) -> Result<(), Fail> {
    run_by_workers(
        &rt,
        &[
            Row::certify(
                "slack of a write",
                b"client,op,key,value,start,finish,slack\n0,w,x,a,1,2,0\n0,w,x,b,3,4,2\n1,r,x,a,7,9,\n",
                "key x operations 3 delta 0 two yes\ntotal keys 1 operations 3 skipped 0 duplicate 0 unmatched 0 infinite 0 atomic 1 two 1 worst 0\n",
                b"stale-cert 1\nkey 1\ndelta 0\norder 0 2 1 3\ntwo yes\norder 0 2 1 3\nend\n",
            ),
            Row::certify(
                "slack of a read",
                b"client,op,key,value,start,finish,slack\n0,w,x,a,1,2,\n0,w,x,b,3,4,\n1,r,x,a,7,9,2\n",
                "key x operations 3 delta 1 pair 1 2 two yes\ntotal keys 1 operations 3 skipped 0 duplicate 0 unmatched 0 infinite 0 atomic 0 two 1 worst 1\n",
                b"stale-cert 1\nkey 1\ndelta 1\norder 0 1 3 2\npair 1 2 2 3\ntwo yes\norder 0 1 2 3\nend\n",
            ),
            Row::certify(
                "slack of a read and of its write",
                b"client,op,key,value,start,finish,slack\n0,r,x,a,1,2,1\n1,w,x,a,3,4,1\n",
                "key x operations 2 delta 0 two yes\ntotal keys 1 operations 2 skipped 0 duplicate 0 unmatched 0 infinite 0 atomic 1 two 1 worst 0\n",
                b"stale-cert 1\nkey 1\ndelta 0\norder 0 2 1\ntwo yes\norder 0 2 1\nend\n",
            ),
            Row::certify(
                "a slack of 0 in each record, which is as none",
                b"client,op,key,value,start,finish,slack\n0,w,x,a,1,2,0\n0,w,x,b,3,4,0\n1,r,x,a,7,9,0\n",
                "key x operations 3 delta 3 pair 1 2 two yes\ntotal keys 1 operations 3 skipped 0 duplicate 0 unmatched 0 infinite 0 atomic 0 two 1 worst 3\n",
                b"stale-cert 1\nkey 1\ndelta 3\norder 0 1 3 2\npair 1 2 2 3\ntwo yes\norder 0 1 2 3\nend\n",
            ),
        ],
    )?;
    Ok(())
}

#[test]
fn faulty_histories_have_no_certificate(rt: HostRuntime) -> Result<(), Fail> {
    run_table(
        &rt,
        &[
            Row {
                words: &["audit", "h", "--cert", "c"],
                ..Row::refused("no certificate is created", b"", 3, "history: no header\n")
            },
            Row {
                words: &["audit", "h", "--cert", "c"],
                cert: Some(b"old".as_slice()),
                after: ("c", Some(b"old".as_slice())),
                ..Row::refused("what was there stays", b"", 3, "history: no header\n")
            },
        ],
    )?;
    Ok(())
}
