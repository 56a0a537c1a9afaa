//! What is read of whole files, of the sizes that no contract speaks of, and what is written.
ghost use Rattle.std.specs.Prelude.{◌≤◌};

use super::*;
use stale_model::{Ask, Entry, JournalEntry, Kind, Line, List, Reply, Request, Took};
use std::test::Fail;

#[test]
fn reads_a_history(rt: HostRuntime) -> Result<(), Fail> {
    let text =
        b"\xEF\xBB\xBFop,client,extra,key,value,start,finish,slack,extra\r\nw,07,,\"user,7\",a,1,2,,\r\nread,8,,\"user,7\",,3,,5,\r\nr,8,,\"user,7\",b,3,3,5,\r\nwrite,1,,k,b,4,,0,\r\n";
    let history = read_history(rt.alloc(), text)?;
    assert_eq!(rt; history.records, 4);
    assert_eq!(rt; history.skipped, 1);
    let keys = history.keys.as_slice();
    assert_eq!(rt; keys.len(), 2);
    assert_eq!(rt; keys[0].name.as_slice(), b"user,7".as_slice());
    assert_eq!(rt; keys[0].values.as_slice().len(), 2);
    let ops = keys[0].ops.as_slice();
    assert_eq!(rt; ops.len(), 2);
    assert_eq!(rt; ops[1].value, 2);
    assert_eq!(rt; ops[1].slack, 5);
    assert_eq!(rt; keys[1].ops.as_slice()[0].finish, 9_223_372_036_854_775_808);
    Ok(())
}

#[test]
fn reads_more_values_and_keys_than_16_bits_count(rt: HostRuntime) -> Result<(), Fail> {
    let mut text = String::from_str(rt.alloc(), "client,op,key,value,start,finish\n")?;
    for number in 1..70_001u32 {
        write!(text, "0,w,x,{number},1,2\n0,w,{number},a,1,2\n")?;
    }
    let history = read_history(rt.alloc(), text.as_bytes())?;
    assert_eq!(rt; history.records, 140_000);
    let keys = history.keys.as_slice();
    assert_eq!(rt; keys.len(), 70_001);
    assert_eq!(rt; keys[0].values.as_slice().len(), 70_000);
    assert_eq!(rt; keys[0].ops.as_slice().len(), 70_000);
    Ok(())
}

#[test]
fn writes_a_history(rt: HostRuntime) -> Result<(), Fail> {
    let lines = [
        Line {
            client: 4_294_967_295,
            kind: Kind::Write,
            key: 2,
            value: 1,
            start: 10,
            finish: 4_611_686_018_427_387_903,
        },
        Line {
            client: 0,
            kind: Kind::Read,
            key: 0,
            value: 0,
            start: 80,
            finish: 97,
        },
    ];
    let text = write_history(rt.alloc(), &lines)?;
    let expected =
        b"client,op,key,value,start,finish\n4294967295,w,k2,v1,10,4611686018427387903\n0,r,k0,,80,97\n";
    assert_eq!(rt; text.as_slice(), expected.as_slice());
    let history = read_history(rt.alloc(), text.as_slice())?;
    assert_eq!(rt; history.records, 2);
    Ok(())
}

// A place of a call that no reply stands in.
const NO_REPLY: Took = Took {
    replica: 0,
    serve: 0,
    stamp: 0,
    value: 0,
};

// A call on key 0 that took one or two replies, which were served at these tickets.
fn call(request: Request, value: u32, finish: u64, served: (u64, Option<u64>)) -> Entry
    ensures { result.took_count ≤ 7 }
{
    let mut took = [NO_REPLY; 7];
    took[0].serve = served.0;
    if let Some(serve) = served.1 {
        took[1].serve = serve;
    }
    Entry {
        client: request.client,
        seq: request.seq,
        kind: match request.ask {
            Ask::Write { .. } => Kind::Write,
            _ => Kind::Read,
        },
        key: request.key,
        value,
        start: request.start,
        finish,
        took,
        took_count: if served.1.is_some() { 2 } else { 1 },
    }
}

// What a client asks of key 0.
fn asked(client: u32, seq: u32, start: u64, ask: Ask) -> Request {
    Request {
        client,
        seq,
        start,
        key: 0,
        ask,
    }
}

// A request that a replica served at this ticket, with the pair of its reply.
fn served(request: Request, replica: u32, serve: u64, stamp: u64, value: u32) -> JournalEntry {
    JournalEntry {
        request,
        reply: Reply {
            replica,
            client: request.client,
            seq: request.seq,
            serve,
            stamp,
            value,
        },
    }
}

#[test]
fn writes_a_run_of_one_replica(rt: HostRuntime) -> Result<(), Fail> {
    let first = asked(0, 1, 1, Ask::Write { value: 1 });
    let second = asked(0, 2, 4, Ask::Write { value: 2 });
    let calls = [call(first, 1, 3, (2, None)), call(second, 2, 6, (5, None))];
    let text = write_recorded(rt.alloc(), &calls)?;
    let expected =
        b"client,op,key,value,start,finish,seq,took\n0,w,k0,v1,1,3,1,2\n0,w,k0,v2,4,6,2,5\n";
    assert_eq!(rt; text.as_slice(), expected.as_slice());
    let journal = vec![in rt.alloc(); served(first, 0, 2, 1, 1), served(second, 0, 5, 4, 2)]?;
    let journals = [List::from_vec(journal)];
    let text = write_journal(rt.alloc(), &journals)?;
    let expected =
        b"replica,serve,client,seq,start,key,op,value,stamp\n0,2,0,1,1,k0,w,v1,1\n0,5,0,2,4,k0,w,v2,4\n";
    assert_eq!(rt; text.as_slice(), expected.as_slice());
    Ok(())
}

#[test]
fn writes_a_run_with_a_repair(rt: HostRuntime) -> Result<(), Fail> {
    let early = asked(0, 1, 1, Ask::Read);
    let write = asked(1, 1, 5, Ask::Write { value: 1 });
    let late = asked(0, 2, 8, Ask::Read);
    let repair = asked(0, 2, 11, Ask::Repair { stamp: 5, value: 1 });
    let calls = [
        call(early, 0, 4, (3, Some(2))),
        call(write, 1, 7, (6, None)),
        call(late, 1, 11, (9, Some(10))),
    ];
    let text = write_recorded(rt.alloc(), &calls)?;
    let expected =
        b"client,op,key,value,start,finish,seq,took\n0,r,k0,,1,4,1,3;2\n1,w,k0,v1,5,7,1,6\n0,r,k0,v1,8,11,2,9;10\n";
    assert_eq!(rt; text.as_slice(), expected.as_slice());
    assert_eq!(rt; read_history(rt.alloc(), text.as_slice())?.records, 3);
    let first = vec![in rt.alloc(); served(early, 0, 2, 0, 0), served(late, 0, 9, 5, 1)]?;
    let second = vec![in rt.alloc(); served(late, 1, 10, 0, 0), served(repair, 1, 12, 5, 1)]?;
    let journals = [List::from_vec(first), List::from_vec(second)];
    let text = write_journal(rt.alloc(), &journals)?;
    let expected =
        b"replica,serve,client,seq,start,key,op,value,stamp\n0,2,0,1,1,k0,r,,0\n0,9,0,2,8,k0,r,v1,5\n1,10,0,2,8,k0,r,,0\n1,12,0,2,11,k0,p,v1,5\n";
    assert_eq!(rt; text.as_slice(), expected.as_slice());
    Ok(())
}
