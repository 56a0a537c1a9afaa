//! What the logs of two shards take of one client, on one thread.
ghost use Rattle.std.specs.Prelude.{◌≡◌, false, length, slice_index_or, vec_len, IfOk};
ghost use Rattle.stale_model.specs.Settings.{calls_of};
ghost use Rattle.key_recorder.specs.Recorders.{LaneView, IsOf};
ghost use Rattle.key_recorder.specs.Prepared.{calls_on};

use crate::{Recorder, RecorderPass, ShardLog};
use stale_model::{Entry, Kind, List, MOST_REPLICAS, Memory, Plan, PlanCall, Settings, Took};
use std::alloc::Global;
use std::sync::Wait;
use std::test::Fail;

// One client with two writes, one key, and two shards.
const SETTINGS: Settings = Settings {
    clients: 1,
    replicas: 1,
    calls: 2,
    keys: 1,
    read_quorum: 1,
    write_quorum: 1,
    writes: 100,
    seed: 1,
    shards: 2,
};

// The call of the client that writes this value.
fn write_of(value: u32) -> PlanCall
    ensures { result.key ≡ 0 }
{
    PlanCall {
        kind: Kind::Write,
        key: 0,
        value,
    }
}

// The plan of a client that writes twice.
fn two_writes(alloc: Global) -> Result<Plan, Memory>
    ensures clients { IfOk result (λ plan. length plan.clients ≡ 1) }
    ensures calls { IfOk result (λ plan. length (calls_of plan 0) ≡ 2) }
    ensures first { IfOk result (λ plan. calls_on 2 0 (calls_of plan 0) ≡ 2) }
{
    let calls = Vec::from_array(alloc, [write_of(1), write_of(2)]).map_err(|_| Memory)?;
    let clients = Vec::from_array(alloc, [List::from_vec(calls)]).map_err(|_| Memory)?;
    Ok(Plan {
        clients: List::from_vec(clients),
    })
}

// The entry of a write of the client.
fn entry(seq: u32, start: u64) -> Entry
    ensures client { result.client ≡ 0 }
    ensures key { result.key ≡ 0 }
{
    let nothing = Took {
        replica: 0,
        serve: 0,
        stamp: 0,
        value: 0,
    };
    Entry {
        client: 0,
        seq,
        kind: Kind::Write,
        key: 0,
        value: seq,
        start,
        finish: start,
        took: [nothing; MOST_REPLICAS],
        took_count: 0,
    }
}

// The recorder, the pass of the client, and the logs of the two shards.
fn prepared<R: Wait>(
    rt: &R,
    alloc: Global,
) -> Result<(Recorder, RecorderPass, Vec<ShardLog>), Memory>
    ensures own { IfOk result (λ made. IsOf made.0 made.1) }
    ensures client { IfOk result (λ made. made.1.client ≡ 0) }
    ensures not_closed { IfOk result (λ made. made.1.closed ≡ false) }
    ensures lanes { IfOk result (λ made. length made.1.lanes ≡ 2) }
    ensures left { IfOk result (λ made. (l : LaneView) → (slice_index_or made.1.lanes 0 l).left ≡ 3) }
    ensures logs { IfOk result (λ made. vec_len made.2 ≡ 2) }
{
    let plan = two_writes(alloc)?;
    let (recorder, mut passes, logs) = Recorder::prepare(rt, alloc, &SETTINGS, &plan)?;
    let pass = passes.remove(0);
    Ok((recorder, pass, logs))
}

// Whether the log, where not all clients have ended, takes a letter.
fn takes_one<R: Wait>(rt: &R, log: &mut ShardLog) -> bool {
    !log.is_drained() && log.step(rt)
}

#[test]
fn entries_come_to_the_log_of_their_shard_alone(rt: HostRuntime) -> Result<(), Fail> {
    let Ok((recorder, mut pass, mut logs)) = prepared(&rt, rt.alloc()) else {
        panic!(rt; "memory")
    };
    recorder.record(&rt, &mut pass, entry(1, 1));
    assert!(rt; takes_one(&rt, &mut logs[0]));
    assert_eq!(rt; logs[0].entries(), [entry(1, 1)].as_slice());
    assert!(rt; !logs[1].is_drained());
    assert!(rt; !takes_one(&rt, &mut logs[1]));
    recorder.record(&rt, &mut pass, entry(2, 2));
    recorder.close(&rt, &mut pass);
    logs[0].drain(&rt);
    logs[1].drain(&rt);
    assert_eq!(rt; logs[0].entries(), [entry(1, 1), entry(2, 2)].as_slice());
    assert!(rt; logs[1].entries().is_empty());
    Ok(())
}
