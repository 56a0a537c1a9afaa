//! The types that all other crates share, and the definitions (in `specs/`) that their contracts cite.
#![tactic(auto)]

ghost use Rattle.std.specs.Prelude.{◌≡◌, ℕ, List, IfOk};

mod store;

use std::alloc::Global;
use std::iter::{self, Chain, Copied, Once};
use std::marker::Model;
use std::slice;
pub use store::{
    Ask, Entry, JournalEntry, MOST_REPLICAS, Plan, PlanCall, Reply, Request, Settings, Took,
};

/// Want of memory: the one answer that every call which allocates may give.
#[derive(Clone, Copy, Debug, PartialEq, Eq)]
pub struct Memory;

/// A text of any bytes. Contracts see it as the list of its bytes.
#[derive(Drop, Debug)]
pub struct Bytes {
    items: Vec<u8>,
}

impl Model for Bytes {
    ghost Value = { List ℕ };

    ghost view = { λ b. b.items.items };
}

impl Bytes {
    /// A copy of a text.
    pub fn of(alloc: Global, text: &[u8]) -> Result<Bytes, Memory>
        ensures { IfOk result (λ b. b ≡ text.now) }
    {
        let mut items = Vec::new(alloc);
        match items.extend_from_slice(text) {
            Ok(()) => Ok(Bytes { items }),
            Err(_) => Err(Memory),
        }
    }

    /// The text of these bytes, which are moved and not copied.
    pub fn from_vec(items: Vec<u8>) -> Bytes
        ensures { result ≡ items.items }
    {
        Bytes { items }
    }

    /// The text.
    pub fn as_slice(&self) -> &[u8]
        ensures { result.now ≡ self.now }
    {
        self.items.as_slice()
    }
}

/// A list. Contracts see it as the list of its items.
#[derive(Drop, Debug)]
pub struct List<T> {
    items: Vec<T>,
}

impl<T> Model for List<T> {
    ghost Value = { List T };

    ghost view = { λ l. l.items.items };
}

impl<T> List<T> {
    /// The list of these items, which are moved and not copied.
    pub fn from_vec(items: Vec<T>) -> List<T>
        ensures { result ≡ items.items }
    {
        List { items }
    }

    /// The items.
    pub fn as_slice(&self) -> &[T]
        ensures { result.now ≡ self.now }
    {
        self.items.as_slice()
    }

    /// The items, to keep.
    pub fn into_vec(self) -> Vec<T>
        ensures { result.items ≡ self }
    {
        self.items
    }
}

/// What an operation does.
#[derive(Clone, Copy, Debug, PartialEq, Eq)]
pub enum Kind {
    Read,
    Write,
}

/// One operation on a key, as a record of a history says it.
#[derive(Clone, Copy, Debug, PartialEq, Eq)]
pub struct Op {
    /// The number of the record, counted from 1; 0 is the initial write.
    pub rec: u32,
    /// The number of the client. No verdict looks at it.
    pub client: u32,
    pub kind: Kind,
    /// The number of the value among the values of the key, counted from 1; 0 is absent.
    pub value: u32,
    /// The tick at which it started.
    pub start: u64,
    /// The tick at which it finished: at least `start`, and 2^63 for a write that never did.
    pub finish: u64,
    /// By how many ticks `start` and `finish` may be wrong.
    pub slack: u64,
}

/// One operation of a history that is written out, whose keys and values are numbers.
#[derive(Clone, Copy, Debug, PartialEq, Eq)]
pub struct Line {
    /// The number of the client.
    pub client: u32,
    pub kind: Kind,
    /// The number of the key: its name is `k` and this number.
    pub key: u32,
    /// The number of the value: it is written as `v` and this number; 0 is absent.
    pub value: u32,
    /// The tick at which it started.
    pub start: u64,
    /// The tick at which it finished.
    pub finish: u64,
}

/// The write of "absent" that stands before all operations of a key: record 0, tick 0, value 0.
pub const INITIAL_WRITE: Op = Op {
    rec: 0,
    client: 0,
    kind: Kind::Write,
    value: 0,
    start: 0,
    finish: 0,
    slack: 0,
};

impl Op {
    ghost use Rattle.std.specs.Prelude.{◌≡◌, ◌^◌, ◌<◌};
    ghost use Rattle.stale_model.specs.Operations.{earliest_start, latest_finish};

    /// The least tick at which the operation may have started: 0 for the initial write, at least 1 for any other.
    pub fn earliest_start(&self) -> u64
        ensures { result ≡ earliest_start self.now }
    {
        if self.rec == 0 {
            0
        } else {
            self.start.saturating_sub(self.slack).max(1)
        }
    }

    /// The greatest tick at which the operation may have finished.
    pub fn latest_finish(&self) -> u64
        requires { latest_finish self.now < 2 ^ 64 }
        ensures { result ≡ latest_finish self.now }
    {
        self.finish + self.slack
    }
}

/// A key with its operations.
#[derive(Drop, Debug)]
pub struct KeyOps {
    pub name: Bytes,
    /// The texts of the values: value v, counted from 1, stands at place v - 1.
    pub values: List<Bytes>,
    /// The operations in rising order of record, without the initial write.
    pub ops: List<Op>,
}

impl KeyOps {
    ghost use Rattle.std.specs.Prelude.{◌≡◌, Some, false};
    ghost use Rattle.std.specs.Iterator.Adapters.{once_item, chain_first, chain_second, chain_first_done, chain_second_done, copied_source};
    ghost use Rattle.std.specs.Slice.Iter.{iter_rest};
    ghost use Rattle.stale_model.specs.Operations.{initial_write, operations};
    ghost use Rattle.stale_model.specs.NamedWrites.{value_of_record};
    ghost use Rattle.stale_model.specs.Valid.{IsValidKey};

    /// All operations of the key, the initial write first.
    pub fn operations(&self) -> Chain<Once<Op>, Copied<slice::Iter<'_, Op>>>
        ensures initial { once_item (chain_first result) ≡ Some initial_write }
        ensures initial_left { chain_first_done result ≡ false }
        ensures others { iter_rest (copied_source (chain_second result)) ≡ self.now.ops }
        ensures others_left { chain_second_done result ≡ false }
    {
        iter::once(INITIAL_WRITE).chain(self.ops.as_slice().iter().copied())
    }

    /// The value of the operation with this record; 0 where the key has none. Takes log n in the operations.
    pub fn value_of(&self, rec: u32) -> u32
        requires { IsValidKey self.now }
        ensures { result ≡ value_of_record (operations self.now) rec }
    {
        let ops = self.ops.as_slice();
        match ops.binary_search_by_key(&rec, |op| op.rec) {
            Ok(place) => ops[place].value,
            Err(_) => 0,
        }
    }
}

/// A history: its keys in order of first appearance.
#[derive(Drop, Debug)]
pub struct History {
    pub keys: List<KeyOps>,
    /// How many records the file has after its header.
    pub records: u32,
    /// How many of them are reads that never finished, which leave no operation.
    pub skipped: u32,
}

/// A write with all reads of its value (Gibbons and Korach 1997), by the numbers that decide.
#[derive(Clone, Copy, Debug, PartialEq, Eq)]
pub struct Cluster {
    /// The record of the write.
    pub write: u32,
    /// The least latest finish of the write and its reads.
    pub f: u64,
    /// The earliest start of the write.
    pub w: u64,
    /// The greatest earliest start of its reads; none without reads.
    pub s: Option<u64>,
    /// The least record that finishes at `f`.
    pub first: u32,
    /// The least record of a read that starts at `s`; the write's record without reads.
    pub last: u32,
}

impl Cluster {
    ghost use Rattle.std.specs.Prelude.{◌≡◌};
    ghost use Rattle.stale_model.specs.Zones.{reads_start};

    /// The greatest earliest start of the reads; 0 without reads.
    pub fn reads_start(&self) -> u64
        ensures { result ≡ reads_start self.now }
    {
        self.s.unwrap_or(0)
    }
}

/// The records of a conflict of two clusters: p precedes q, and q2 precedes p2, where p and p2 are of
/// one cluster, and q and q2 of another.
#[derive(Clone, Copy, Debug, PartialEq, Eq)]
pub struct Four {
    pub p: u32,
    pub q: u32,
    pub q2: u32,
    pub p2: u32,
}

/// Why a chain of clusters, counted from the last place on, can't go on.
#[derive(Clone, Copy, Debug, PartialEq, Eq)]
pub enum End {
    /// p, of the cluster at hand, precedes the write u of a cluster not placed.
    Hard { p: u32, u: u32 },
    /// p, of the cluster at hand, precedes the reads q and q2 of two clusters not placed.
    Soft { p: u32, q: u32, q2: u32 },
}

/// One cluster tried as the last one: the chain that it forces, from the last place on, and its end.
#[derive(Drop, Debug)]
pub struct Try {
    /// The write records of the clusters of the chain.
    pub chain: List<u32>,
    pub end: End,
}

/// Why a key is not 2-atomic: write records of which none can be the last one.
#[derive(Drop, Debug)]
pub struct Refutation {
    pub stuck: List<u32>,
    /// One try for each member of `stuck`, in the same order.
    pub tries: List<Try>,
}

/// The answer that is printed for the clusters of a key: a listing of them, or why there is none.
#[derive(Drop, Debug)]
pub enum Two {
    /// The write records of a listing, from the first to the last.
    Yes(List<u32>),
    No(Refutation),
}

/// The part of a judgement that says whether the key is 2-atomic.
#[derive(Drop, Debug)]
pub enum TwoPart {
    /// An order of all operations in which each read returns one of the last two writes.
    Yes(List<u32>),
    No(Refutation),
}

/// How stale the reads of a key got.
#[derive(Drop, Debug)]
pub struct Judgement {
    /// The least d at which an order of all operations exists that extends precedence where reads start d earlier, and
    /// in which each read returns the last write before it (Golab, Li and Shah 2011).
    pub delta: u64,
    /// The records of such an order at `delta`, the initial write's 0 among them.
    pub order: List<u32>,
    /// Why there is none at `delta` - 1; none where `delta` is 0.
    pub four: Option<Four>,
    /// Whether the key is 2-atomic, where reads are taken as they are.
    pub two: TwoPart,
}

/// What is said of a key.
#[derive(Drop, Debug)]
pub enum Verdict {
    /// The record is the least one of a write whose value an earlier record wrote.
    Duplicate { rec: u32 },
    /// The record is the least one of a read whose value no record writes.
    Unmatched { rec: u32 },
    /// The record is the least one of a read that ends before its write starts: no d has an order.
    Infinite { rec: u32 },
    /// None of these.
    Judged(Judgement),
}
