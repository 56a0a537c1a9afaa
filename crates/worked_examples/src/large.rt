//! Large keys, whose certificates are written and checked in a test's time.

ghost use Rattle.std.specs.Prelude.{◌≤◌};

use crate::harness::{Row, run_row, run_then_check};
use std::alloc::{AllocError, Global};
use std::test::Fail;

const HEADER: &[u8] = b"client,op,key,value,start,finish\n";

// Eight clients who take turns, 25,000 operations each and none at the time of another: those of even number write, and
// each of the others reads what was written last. The file is sorted by client.
fn sorted_by_client(alloc: Global) -> Result<Vec<u8>, AllocError> {
    let mut history = Vec::from_slice(alloc, HEADER)?;
    for record in 0..200_000u32 {
        let client = record / 25_000;
        let turn = record % 25_000 * 8 + client;
        let op = if client % 2 == 0 { "w" } else { "r" };
        let value = turn / 2;
        let start = 2 * turn + 1;
        let finish = 2 * turn + 2;
        let line = format!(in alloc; "{client},{op},x,v{value},{start},{finish}\n")?;
        history.extend_from_slice(line.as_bytes())?;
    }
    Ok(history)
}

// Their records in the order of time.
fn turn_by_turn(alloc: Global) -> Result<Vec<u8>, AllocError> {
    let mut order = Vec::from_slice(alloc, b"order 0")?;
    for turn in 0..200_000u32 {
        let record = turn % 8 * 25_000 + turn / 8 + 1;
        order.extend_from_slice(format!(in alloc; " {record}")?.as_bytes())?;
    }
    order.push(b'\n')?;
    Ok(order)
}

#[test]
fn an_order_jumps_among_the_records(rt: HostRuntime) -> Result<(), Fail> {
    let alloc = rt.alloc();
    let history = sorted_by_client(alloc)?;
    let order = turn_by_turn(alloc)?;
    let mut cert = Vec::from_slice(alloc, b"stale-cert 1\nkey 1\ndelta 0\n")?;
    cert.extend_from_slice(&order)?;
    cert.extend_from_slice(b"two yes\n")?;
    cert.extend_from_slice(&order)?;
    cert.extend_from_slice(b"end\n")?;
    let row = Row::certify(
        "a file sorted by client",
        &history,
        "key x operations 200000 delta 0 two yes\ntotal keys 1 operations 200000 skipped 0 duplicate 0 unmatched 0 infinite 0 atomic 1 two 1 worst 0\n",
        &cert,
    );
    run_row(&rt, &row)?;
    run_row(
        &rt,
        &Row::check("its certificate", &history, &cert, 0, "good\n"),
    )?;
    Ok(())
}

// Writes whose reads start after the next of them finished, so that each forces the one before it; one write between
// the ends of the first two, which is stuck with them; and as many writes with no reads that end just before the last
// read of the chain starts, so that each forces the whole chain.
fn shared_chain(alloc: Global, length: u32) -> Result<Vec<u8>, AllocError>
    requires { length ≤ 10000 }
{
    let mut history = Vec::from_slice(alloc, HEADER)?;
    for i in 1..=length {
        let finish = 10 * i;
        history.extend_from_slice(format!(in alloc; "0,w,x,s{i},1,{finish}\n")?.as_bytes())?;
    }
    history.extend_from_slice(b"0,w,x,z,15,16\n")?;
    for i in 1..=length {
        let finish = 10 * length + 12;
        history.extend_from_slice(format!(in alloc; "0,w,x,t{i},1,{finish}\n")?.as_bytes())?;
    }
    for i in 1..=length {
        let start = 10 * i + 15;
        history.extend_from_slice(format!(in alloc; "0,r,x,s{i},{start},{start}\n")?.as_bytes())?;
    }
    Ok(history)
}

#[test]
fn a_thousand_tries_share_a_chain(rt: HostRuntime) -> Result<(), Fail> {
    let history = shared_chain(rt.alloc(), 1000)?;
    let row = Row {
        words: &["audit", "h", "--cert", "c"],
        ..Row::audit(
            "a thousand last candidates",
            &history,
            "key x operations 3001 delta 9 pair 1 1001 two no\ntotal keys 1 operations 3001 skipped 0 duplicate 0 unmatched 0 infinite 0 atomic 0 two 0 worst 9\n",
        )
    };
    run_then_check(&rt, &row)?;
    Ok(())
}
