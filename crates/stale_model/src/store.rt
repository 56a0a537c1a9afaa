//! The types of the store: what a run is asked to do, the letters between its clients and replicas, and what each keeps
//! of it.

use crate::{Kind, List};

/// The most replicas that a store has.
pub const MOST_REPLICAS: usize = 7;

/// What a run of the store is asked to do.
#[derive(Clone, Copy, Debug, PartialEq, Eq)]
pub struct Settings {
    /// How many clients there are: 1 to 32.
    pub clients: u32,
    /// How many replicas there are: 1 to 7.
    pub replicas: u32,
    /// How many calls each client makes: at least 1, and all clients together at most 100,000.
    pub calls: u32,
    /// How many keys there are: 1 to 1,000.
    pub keys: u32,
    /// How many replies a read takes: 1 to `replicas`.
    pub read_quorum: u32,
    /// How many replies a write takes: 1 to `replicas`.
    pub write_quorum: u32,
    /// How many of a hundred calls are writes: 0 to 100.
    pub writes: u32,
    /// The seed of the plan.
    pub seed: u64,
    /// How many recorders share the keys: 1 to 16.
    pub shards: u32,
}

/// A call that a client is to make.
#[derive(Clone, Copy, Debug, PartialEq, Eq)]
pub struct PlanCall {
    pub kind: Kind,
    /// The number of the key, counted from 0.
    pub key: u32,
    /// The number of the value that a write writes, counted from 1; 0 for a read.
    pub value: u32,
}

/// The calls of each client, in the order in which it makes them.
#[derive(Drop, Debug)]
pub struct Plan {
    pub clients: List<List<PlanCall>>,
}

/// What a request asks of a replica.
#[derive(Clone, Copy, Debug, PartialEq, Eq)]
pub enum Ask {
    Read,
    Write { value: u32 },
    /// To hold a pair that another replica holds.
    Repair { stamp: u64, value: u32 },
}

/// What a client sends to a replica for one of its calls.
#[derive(Clone, Copy, Debug, PartialEq, Eq)]
pub struct Request {
    /// The number of the client, counted from 0.
    pub client: u32,
    /// The number of the call among those of the client, counted from 1.
    pub seq: u32,
    /// The ticket at which the call started; of a repair, the one at which its read finished.
    pub start: u64,
    /// The number of the key, counted from 0.
    pub key: u32,
    pub ask: Ask,
}

/// What a replica answers to a request.
#[derive(Clone, Copy, Debug, PartialEq, Eq)]
pub struct Reply {
    /// The number of the replica, counted from 0.
    pub replica: u32,
    /// The client of the request.
    pub client: u32,
    /// The number of the call of the request.
    pub seq: u32,
    /// The ticket at which the request was served.
    pub serve: u64,
    /// The start of the write of the value: what is held of the key for a read, else what the request says; 0 where nothing
    /// was written.
    pub stamp: u64,
    /// The number of the value, counted from 1; 0 is absent.
    pub value: u32,
}

/// A request with its reply, as a replica keeps it in its journal.
#[derive(Clone, Copy, Debug, PartialEq, Eq)]
pub struct JournalEntry {
    pub request: Request,
    pub reply: Reply,
}

/// A reply, as the call that took it keeps it.
#[derive(Clone, Copy, Debug, PartialEq, Eq)]
pub struct Took {
    /// The number of the replica, counted from 0.
    pub replica: u32,
    /// The ticket at which the request was served.
    pub serve: u64,
    pub stamp: u64,
    pub value: u32,
}

/// A call that a client has made.
#[derive(Clone, Copy, Debug, PartialEq, Eq)]
pub struct Entry {
    /// The number of the client, counted from 0.
    pub client: u32,
    /// The number of the call among those of the client, counted from 1.
    pub seq: u32,
    pub kind: Kind,
    /// The number of the key, counted from 0.
    pub key: u32,
    /// The number of the value that was written, or that the read returns, counted from 1; 0 is absent.
    pub value: u32,
    /// The ticket at which it started.
    pub start: u64,
    /// The ticket at which it finished.
    pub finish: u64,
    /// The replies of its quorum, in the order in which they were taken. Only the first `took_count` places count; the
    /// others are zeros.
    pub took: [Took; MOST_REPLICAS],
    pub took_count: u32,
}
