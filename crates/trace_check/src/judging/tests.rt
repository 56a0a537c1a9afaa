ghost use Rattle.std.specs.Prelude.{◌-◌, ◌^◌, ◌<◌, ◌≤◌, length};
ghost use Rattle.stale_model.specs.Settings.{AreSettings};

use super::*;
use crate::{TraceFault, trace_of};
use std::test::Fail;

// Two writes of one client to one replica: served at 2 and at 5.
const HISTORY: &[u8] =
    b"client,op,key,value,start,finish,seq,took\n0,w,k0,v1,1,3,1,2\n0,w,k0,v2,4,6,2,5\n";

const JOURNAL: &[u8] =
    b"replica,serve,client,seq,start,key,op,value,stamp\n0,2,0,1,1,k0,w,v1,1\n0,5,0,2,4,k0,w,v2,4\n";

// One client with two calls on one key of one replica, of which so many in a hundred are writes.
fn settings(writes: u32) -> Settings
    requires { writes ≤ 100 }
    ensures { AreSettings result }
{
    Settings {
        clients: 1,
        replicas: 1,
        calls: 2,
        keys: 1,
        read_quorum: 1,
        write_quorum: 1,
        writes,
        seed: 1,
        shards: 1,
    }
}

// What is found of two files.
fn part_of(alloc: Global, writes: u32, history: &[u8], journal: &[u8]) -> Result<Part, TraceFault>
    requires writes { writes ≤ 100 }
    requires history { length history.now < 2 ^ 32 - 1 }
    requires journal { length journal.now < 2 ^ 32 - 1 }
{
    let settings = settings(writes);
    let trace = trace_of(alloc, &settings, history, journal)?;
    Ok(recorded(alloc, &settings, &trace)?)
}

#[test]
fn finds_a_recorded_run(rt: HostRuntime) -> Result<(), Fail> {
    assert_eq!(rt; part_of(rt.alloc(), 100, HISTORY, JOURNAL)?, Part::Good);
    Ok(())
}

#[test]
fn finds_calls_that_fail(rt: HostRuntime) -> Result<(), Fail> {
    // The second call is missing.
    let history = b"client,op,key,value,start,finish,seq,took\n0,w,k0,v1,1,3,1,2\n".as_slice();
    assert_eq!(rt;
        part_of(rt.alloc(), 100, history, JOURNAL)?,
        Part::Bad { part: 1 }
    );
    // The second call finishes at the ticket of its request.
    let history =
        b"client,op,key,value,start,finish,seq,took\n0,w,k0,v1,1,3,1,2\n0,w,k0,v2,4,5,2,5\n".as_slice();
    assert_eq!(rt;
        part_of(rt.alloc(), 100, history, JOURNAL)?,
        Part::Bad { part: 2 }
    );
    // Nothing was written, and the first read returns a value.
    let history =
        b"client,op,key,value,start,finish,seq,took\n0,r,k0,v1,1,3,1,2\n0,r,k0,,4,6,2,5\n".as_slice();
    let journal =
        b"replica,serve,client,seq,start,key,op,value,stamp\n0,2,0,1,1,k0,r,,0\n0,5,0,2,4,k0,r,,0\n".as_slice();
    assert_eq!(rt;
        part_of(rt.alloc(), 0, history, journal)?,
        Part::Bad { part: 4 }
    );
    Ok(())
}

#[test]
fn finds_journals_that_fail(rt: HostRuntime) -> Result<(), Fail> {
    // The second request is missing.
    let journal =
        b"replica,serve,client,seq,start,key,op,value,stamp\n0,2,0,1,1,k0,w,v1,1\n".as_slice();
    assert_eq!(rt;
        part_of(rt.alloc(), 100, HISTORY, journal)?,
        Part::Bad { part: 3 }
    );
    // The second write has a stamp before its start.
    let journal =
        b"replica,serve,client,seq,start,key,op,value,stamp\n0,2,0,1,1,k0,w,v1,1\n0,5,0,2,4,k0,w,v2,3\n".as_slice();
    assert_eq!(rt;
        part_of(rt.alloc(), 100, HISTORY, journal)?,
        Part::Bad { part: 5 }
    );
    // A request that no call sent.
    let journal =
        b"replica,serve,client,seq,start,key,op,value,stamp\n0,2,0,1,1,k0,w,v1,1\n0,5,0,2,4,k0,w,v2,4\n0,7,0,1,1,k0,r,v2,4\n".as_slice();
    assert_eq!(rt;
        part_of(rt.alloc(), 100, HISTORY, journal)?,
        Part::Bad { part: 6 }
    );
    Ok(())
}
