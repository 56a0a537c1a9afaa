//! What is read of a history, and each fault of one.

use crate::harness::{Row, run_row, run_table};
use std::test::Fail;

#[test]
fn histories_are_read(rt: HostRuntime) -> Result<(), Fail> {
    run_table(
        &rt,
        &[
            Row::audit(
                "the header alone",
                b"client,op,key,value,start,finish\n",
                "total keys 0 operations 0 skipped 0 duplicate 0 unmatched 0 infinite 0 atomic 0 two 0 worst none\n",
            ),
            Row::audit(
                "a real-looking file with carriage returns, quotes and a column that is not looked at",
                b"key,op,node,value,client,start,finish\r\n\"user,7\",write,n1,v1,0,1700000000000000000,1700000000000400000\r\n\"user,7\",write,n2,v2,1,1700000000000500000,1700000000000900000\r\n\"user,7\",read,n3,v1,2,1700000000002000000,1700000000002300000\r\n",
                "key user,7 operations 3 delta 1100000 pair 1 2 two yes\ntotal keys 1 operations 3 skipped 0 duplicate 0 unmatched 0 infinite 0 atomic 0 two 1 worst 1100000\n",
            ),
            Row::audit(
                "the same after a byte order mark",
                b"\xef\xbb\xbfkey,op,node,value,client,start,finish\r\n\"user,7\",write,n1,v1,0,1700000000000000000,1700000000000400000\r\n\"user,7\",write,n2,v2,1,1700000000000500000,1700000000000900000\r\n\"user,7\",read,n3,v1,2,1700000000002000000,1700000000002300000\r\n",
                "key user,7 operations 3 delta 1100000 pair 1 2 two yes\ntotal keys 1 operations 3 skipped 0 duplicate 0 unmatched 0 infinite 0 atomic 0 two 1 worst 1100000\n",
            ),
            Row::audit(
                "columns in another order, and the long words",
                b"op,client,finish,start,value,key\nwrite,0,3,1,a,x\nread,1,6,4,a,x\n",
                "key x operations 2 delta 0 two yes\ntotal keys 1 operations 2 skipped 0 duplicate 0 unmatched 0 infinite 0 atomic 1 two 1 worst 0\n",
            ),
            Row::audit(
                "an open write, and a read that never finished and is skipped",
                b"client,op,key,value,start,finish\n0,w,x,a,1,\n1,r,x,,5,6\n2,r,x,a,7,8\n3,r,x,a,9,\n",
                "key x operations 3 delta 0 two yes\ntotal keys 1 operations 3 skipped 1 duplicate 0 unmatched 0 infinite 0 atomic 1 two 1 worst 0\n",
            ),
            Row::audit(
                "a skipped read alone names no key",
                b"client,op,key,value,start,finish\n3,r,y,b,9,\n",
                "total keys 0 operations 0 skipped 1 duplicate 0 unmatched 0 infinite 0 atomic 0 two 0 worst none\n",
            ),
            Row::audit(
                "the largest tick",
                b"client,op,key,value,start,finish\n0,w,x,a,1,4611686018427387903\n",
                "key x operations 1 delta 0 two yes\ntotal keys 1 operations 1 skipped 0 duplicate 0 unmatched 0 infinite 0 atomic 1 two 1 worst 0\n",
            ),
            Row::audit(
                "a finish equal to its start, and leading zeros",
                b"client,op,key,value,start,finish\n007,w,x,a,03,0003\n",
                "key x operations 1 delta 0 two yes\ntotal keys 1 operations 1 skipped 0 duplicate 0 unmatched 0 infinite 0 atomic 1 two 1 worst 0\n",
            ),
            Row::audit(
                "a key with a blank",
                b"client,op,key,value,start,finish\n0,w,a b,a,1,2\n",
                "key a\\x20b operations 1 delta 0 two yes\ntotal keys 1 operations 1 skipped 0 duplicate 0 unmatched 0 infinite 0 atomic 1 two 1 worst 0\n",
            ),
            Row::audit(
                "the same key in quotes",
                b"client,op,key,value,start,finish\n0,w,\"a b\",a,1,2\n",
                "key a\\x20b operations 1 delta 0 two yes\ntotal keys 1 operations 1 skipped 0 duplicate 0 unmatched 0 infinite 0 atomic 1 two 1 worst 0\n",
            ),
            Row::audit(
                "a line break and a doubled quote in a field",
                b"client,op,key,value,start,finish\n0,w,\"a\n\"\"b\",a,1,2\n",
                "key a\\x0a\"b operations 1 delta 0 two yes\ntotal keys 1 operations 1 skipped 0 duplicate 0 unmatched 0 infinite 0 atomic 1 two 1 worst 0\n",
            ),
            Row::audit(
                "a last line with no end",
                b"client,op,key,value,start,finish\n0,w,x,a,1,2",
                "key x operations 1 delta 0 two yes\ntotal keys 1 operations 1 skipped 0 duplicate 0 unmatched 0 infinite 0 atomic 1 two 1 worst 0\n",
            ),
            Row::audit(
                "a column that stands twice and is not looked at",
                b"client,op,key,value,start,finish,note,note\n0,w,x,a,1,2,p,q\n",
                "key x operations 1 delta 0 two yes\ntotal keys 1 operations 1 skipped 0 duplicate 0 unmatched 0 infinite 0 atomic 1 two 1 worst 0\n",
            ),
            Row::audit(
                "a key that is no text",
                b"client,op,key,value,start,finish\n0,w,\xff\xfe,a,1,2\n",
                "key \\xff\\xfe operations 1 delta 0 two yes\ntotal keys 1 operations 1 skipped 0 duplicate 0 unmatched 0 infinite 0 atomic 1 two 1 worst 0\n",
            ),
            Row::audit(
                "a slack of 0 in each record",
                b"client,op,key,value,start,finish,slack\n0,w,x,a,1,2,0\n0,w,x,b,3,4,0\n1,r,x,a,7,9,0\n",
                "key x operations 3 delta 3 pair 1 2 two yes\ntotal keys 1 operations 3 skipped 0 duplicate 0 unmatched 0 infinite 0 atomic 0 two 1 worst 3\n",
            ),
            Row::audit(
                "the largest slack, and an empty one",
                b"client,op,key,value,start,finish,slack\n0,w,x,a,1,2,4611686018427387903\n0,w,x,b,3,4,\n",
                "key x operations 2 delta 0 two yes\ntotal keys 1 operations 2 skipped 0 duplicate 0 unmatched 0 infinite 0 atomic 1 two 1 worst 0\n",
            ),
        ],
    )?;
    Ok(())
}

#[test]
fn headers_at_fault_are_refused(rt: HostRuntime) -> Result<(), Fail> {
    run_table(
        &rt,
        &[
            Row::refused("a file of no bytes", b"", 3, "history: no header\n"),
            Row::refused(
                "a column that is missing",
                b"client,op,key,value,start\n",
                3,
                "history: column finish\n",
            ),
            Row::refused(
                "a column that stands twice",
                b"client,op,key,op,value,start,finish\n",
                3,
                "history: column op\n",
            ),
            Row::refused(
                "the first column at fault in the order of the columns",
                b"key,client,key\n",
                3,
                "history: column op\n",
            ),
            Row::refused(
                "a slack that stands twice",
                b"client,op,slack,key,value,start,finish,slack\n",
                3,
                "history: column slack\n",
            ),
            Row::refused(
                "a second byte order mark, which is of the first column's name",
                b"\xef\xbb\xbf\xef\xbb\xbfclient,op,key,value,start,finish\n",
                3,
                "history: column client\n",
            ),
        ],
    )?;
    Ok(())
}

#[test]
fn records_at_fault_are_refused(rt: HostRuntime) -> Result<(), Fail> {
    run_table(
        &rt,
        &[
            Row::refused(
                "too few fields",
                b"client,op,key,value,start,finish\n0,w,x,a,1\n",
                3,
                "history record 1: fields\n",
            ),
            Row::refused(
                "an unknown word",
                b"client,op,key,value,start,finish\n0,zap,x,a,1,2\n",
                3,
                "history record 1: op\n",
            ),
            Row::refused(
                "a client that is no number",
                b"client,op,key,value,start,finish\nc1,w,x,a,1,2\n",
                3,
                "history record 1: client\n",
            ),
            Row::refused(
                "a client above 32 bits",
                b"client,op,key,value,start,finish\n4294967296,w,x,a,1,2\n",
                3,
                "history record 1: client\n",
            ),
            Row::refused(
                "an empty key",
                b"client,op,key,value,start,finish\n0,w,,a,1,2\n",
                3,
                "history record 1: key\n",
            ),
            Row::refused(
                "an empty written value",
                b"client,op,key,value,start,finish\n0,w,x,,1,2\n",
                3,
                "history record 1: value\n",
            ),
            Row::refused(
                "a tick of 0",
                b"client,op,key,value,start,finish\n0,w,x,a,0,2\n",
                3,
                "history record 1: time\n",
            ),
            Row::refused(
                "a tick above the largest",
                b"client,op,key,value,start,finish\n0,w,x,a,1,4611686018427387904\n",
                3,
                "history record 1: time\n",
            ),
            Row::refused(
                "a tick with a sign",
                b"client,op,key,value,start,finish\n0,w,x,a,+1,2\n",
                3,
                "history record 1: time\n",
            ),
            Row::refused(
                "the first record at fault decides",
                b"client,op,key,value,start,finish\n0,w,x,a,5,4\n0,zap,x,b,6,7\n",
                3,
                "history record 1: backwards\n",
            ),
            Row::refused(
                "a later record",
                b"client,op,key,value,start,finish\n0,w,x,a,3,4\n0,w,x,b,6,5\n",
                3,
                "history record 2: backwards\n",
            ),
            Row::refused(
                "the value before the time",
                b"client,op,key,value,start,finish\n0,w,x,,z,2\n",
                3,
                "history record 1: value\n",
            ),
            Row::refused(
                "a skipped read is checked",
                b"client,op,key,value,start,finish\nz,r,x,a,1,\n",
                3,
                "history record 1: client\n",
            ),
            Row::refused(
                "a slack that is no number",
                b"client,op,key,value,start,finish,slack\n0,w,x,a,1,2,z\n",
                3,
                "history record 1: slack\n",
            ),
            Row::refused(
                "a slack above the largest",
                b"client,op,key,value,start,finish,slack\n0,w,x,a,1,2,4611686018427387904\n",
                3,
                "history record 1: slack\n",
            ),
            Row::refused(
                "the slack after all else",
                b"client,op,key,value,start,finish,slack\n0,w,x,a,2,1,z\n",
                3,
                "history record 1: backwards\n",
            ),
        ],
    )?;
    Ok(())
}

#[test]
fn cut_files_are_read_as_they_stand(rt: HostRuntime) -> Result<(), Fail> {
    run_table(
        &rt,
        &[
            Row::refused(
                "cut in the first column",
                b"clien",
                3,
                "history: column client\n",
            ),
            Row::refused(
                "cut after the first column",
                b"client",
                3,
                "history: column op\n",
            ),
            Row::refused(
                "cut in the last column",
                b"client,op,key,value,start,finis",
                3,
                "history: column finish\n",
            ),
            Row::audit(
                "cut after the header",
                b"client,op,key,value,start,finish",
                "total keys 0 operations 0 skipped 0 duplicate 0 unmatched 0 infinite 0 atomic 0 two 0 worst none\n",
            ),
            Row::refused(
                "cut before a finish",
                b"client,op,key,value,start,finish\n0,w,x,a,1",
                3,
                "history record 1: fields\n",
            ),
            Row::audit(
                "cut in a finish, which makes an open write",
                b"client,op,key,value,start,finish\n0,w,x,a,1,",
                "key x operations 1 delta 0 two yes\ntotal keys 1 operations 1 skipped 0 duplicate 0 unmatched 0 infinite 0 atomic 1 two 1 worst 0\n",
            ),
            Row::audit(
                "cut in the finish of a read, which is skipped",
                b"client,op,key,value,start,finish\n0,w,x,a,1,3\n1,r,x,a,4,",
                "key x operations 1 delta 0 two yes\ntotal keys 1 operations 1 skipped 1 duplicate 0 unmatched 0 infinite 0 atomic 1 two 1 worst 0\n",
            ),
        ],
    )?;
    Ok(())
}

#[test]
fn a_million_records_are_the_most(rt: HostRuntime) -> Result<(), Fail> {
    let mut history = Vec::from_slice(rt.alloc(), b"client,op,key,value,start,finish\n")?;
    for _ in 0..1_000_000 {
        history.extend_from_slice(b"0,r,x,,1,1\n")?;
    }
    run_row(
        &rt,
        &Row::audit(
            "a million records",
            &history,
            "key x operations 1000000 delta 0 two yes\ntotal keys 1 operations 1000000 skipped 0 duplicate 0 unmatched 0 infinite 0 atomic 1 two 1 worst 0\n",
        ),
    )?;
    history.extend_from_slice(b"0,zap,x,,1,1\n")?;
    run_row(
        &rt,
        &Row::refused(
            "one more, which is not looked at",
            &history,
            3,
            "history: more than 1000000 records\n",
        ),
    )?;
    Ok(())
}
