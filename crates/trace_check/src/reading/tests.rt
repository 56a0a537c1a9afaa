ghost use Rattle.std.specs.Prelude.{◌-◌, ◌^◌, ◌<◌, length};

use super::*;
use stale_model::{Ask, Entry, JournalEntry, Kind, Reply, Request, Took};
use std::test::Fail;

// Two writes of one client to one replica: served at 2 and at 5.
const HISTORY: &[u8] =
    b"client,op,key,value,start,finish,seq,took\n0,w,k0,v1,1,3,1,2\n0,w,k0,v2,4,6,2,5\n";

const JOURNAL: &[u8] =
    b"replica,serve,client,seq,start,key,op,value,stamp\n0,2,0,1,1,k0,w,v1,1\n0,5,0,2,4,k0,w,v2,4\n";

// One client with two calls on one key.
fn settings(replicas: u32) -> Settings {
    Settings {
        clients: 1,
        replicas,
        calls: 2,
        keys: 1,
        read_quorum: 1,
        write_quorum: 1,
        writes: 100,
        seed: 1,
        shards: 1,
    }
}

#[test]
fn reads_the_second_of_two_calls(rt: HostRuntime) -> Result<(), Fail> {
    let trace = trace_of(rt.alloc(), &settings(1), HISTORY, JOURNAL)?;
    let [_, second] = trace.entries.as_slice() else {
        panic!(rt; "not two calls");
    };
    let none = Took {
        replica: 0,
        serve: 0,
        stamp: 0,
        value: 0,
    };
    let taken = Took {
        replica: 0,
        serve: 5,
        stamp: 4,
        value: 2,
    };
    assert_eq!(rt;
        *second,
        Entry {
            client: 0,
            seq: 2,
            kind: Kind::Write,
            key: 0,
            value: 2,
            start: 4,
            finish: 6,
            took: [taken, none, none, none, none, none, none],
            took_count: 1,
        }
    );
    Ok(())
}

#[test]
fn reads_the_first_of_two_requests(rt: HostRuntime) -> Result<(), Fail> {
    let trace = trace_of(rt.alloc(), &settings(1), HISTORY, JOURNAL)?;
    let [journal] = trace.journals.as_slice() else {
        panic!(rt; "not one journal");
    };
    let [first, _] = journal.as_slice() else {
        panic!(rt; "not two requests");
    };
    assert_eq!(rt;
        *first,
        JournalEntry {
            request: Request {
                client: 0,
                seq: 1,
                start: 1,
                key: 0,
                ask: Ask::Write { value: 1 },
            },
            reply: Reply {
                replica: 0,
                client: 0,
                seq: 1,
                serve: 2,
                stamp: 1,
                value: 1,
            },
        }
    );
    Ok(())
}

// A read that took a reply of each replica, where the ticket of the second stands in no journal, and a repair.
#[test]
fn reads_a_ticket_that_stands_nowhere(rt: HostRuntime) -> Result<(), Fail> {
    let history = b"client,op,key,value,start,finish,seq,took\n0,r,k0,,1,4,1,2;3\n";
    let journal =
        b"replica,serve,client,seq,start,key,op,value,stamp\n1,2,0,1,1,k0,r,,0\n1,6,0,1,4,k0,p,v7,5\n";
    let trace = trace_of(
        rt.alloc(),
        &settings(2),
        history.as_slice(),
        journal.as_slice(),
    )?;
    let [call] = trace.entries.as_slice() else {
        panic!(rt; "not one call");
    };
    assert_eq!(rt; call.value, 0);
    assert_eq!(rt; call.took_count, 2);
    assert_eq!(rt; call.took[0].replica, 1);
    assert_eq!(rt; call.took[1].replica, 0);
    assert_eq!(rt; call.took[1].serve, 3);
    let [first, second] = trace.journals.as_slice() else {
        panic!(rt; "not two journals");
    };
    assert_eq!(rt; first.as_slice().len(), 0);
    assert_eq!(rt; second.as_slice().len(), 2);
    assert_eq!(rt;
        second.as_slice()[1].request.ask,
        Ask::Repair { stamp: 5, value: 7 }
    );
    Ok(())
}

// The fault of two files.
fn fault_of(alloc: Global, history: &[u8], journal: &[u8]) -> Option<TraceFault>
    requires history { length history.now < 2 ^ 32 - 1 }
    requires journal { length journal.now < 2 ^ 32 - 1 }
{
    match trace_of(alloc, &settings(1), history, journal) {
        Ok(_) => None,
        Err(fault) => Some(fault),
    }
}

#[test]
fn tells_the_first_line_at_fault(rt: HostRuntime) -> Result<(), Fail> {
    // The header alone reads.
    let alone = b"client,op,key,value,start,finish,seq,took\n".as_slice();
    assert_eq!(rt; fault_of(rt.alloc(), alone, JOURNAL), None);
    assert_eq!(rt;
        fault_of(rt.alloc(), b"".as_slice(), b"".as_slice()),
        Some(TraceFault::History { line: 1 })
    );
    assert_eq!(rt;
        fault_of(rt.alloc(), HISTORY, b"".as_slice()),
        Some(TraceFault::Journal { line: 1 })
    );
    // No line feed at the end, and a number with a leading zero.
    let open = b"client,op,key,value,start,finish,seq,took\n0,w,k0,v1,1,3,1,2".as_slice();
    assert_eq!(rt;
        fault_of(rt.alloc(), open, JOURNAL),
        Some(TraceFault::History { line: 2 })
    );
    let zero =
        b"client,op,key,value,start,finish,seq,took\n0,w,k0,v1,1,3,1,2\n0,w,k0,v2,4,6,02,5\n".as_slice();
    assert_eq!(rt;
        fault_of(rt.alloc(), zero, JOURNAL),
        Some(TraceFault::History { line: 3 })
    );
    // A repair with an empty value.
    let empty =
        b"replica,serve,client,seq,start,key,op,value,stamp\n0,2,0,1,1,k0,p,,1\n".as_slice();
    assert_eq!(rt;
        fault_of(rt.alloc(), HISTORY, empty),
        Some(TraceFault::Journal { line: 2 })
    );
    Ok(())
}
