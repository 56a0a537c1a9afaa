//! Sorts the operations of a key into clusters, or names the fault of the key.
#![tactic(auto)]

ghost use Rattle.std.specs.Prelude.{◌≡◌, ◌+◌, ◌^◌, ◌<◌, List, [], ◌∷◌, ◌++◌, length, IfOk};
ghost use Rattle.std.specs.List.{filter_map};
ghost use Rattle.stale_model.specs.Valid.{IsValidKey};
ghost use Rattle.stale_model.specs.Operations.{initial_write, operations, latest_finish};
ghost use Rattle.stale_model.specs.Clusters.{IsLeastFinish, AreReadsOf, IsClusterOf, AreClusters};
ghost use Rattle.clusters.specs.Tables.{lone_cluster, IsTable, IsLone, AreWrites, IsWriteTable, IsClusterTable, cluster_in};
ghost use Rattle.clusters.specs.Gathering.{IsEarlyWith, IsGathering};
ghost use Rattle.clusters.specs.Sorting.{IsSorting};
ghost use Rattle.clusters.specs.Laws.{SortingsAreOne, SortingsExist, ClustersAreFew};

pub use stale_model::Cluster;
use stale_model::{INITIAL_WRITE, KeyOps, Kind, List, Memory, Op};
use std::alloc::{AllocError, Global};
use std::cmp::Ordering;

/// What the operations of a key are sorted into: its first kind of fault, with the least record that
/// has it, and its clusters in rising order of the write's record, the initial write's first.
#[derive(Drop, Debug)]
pub enum Sorted {
    /// The record writes a value that a lesser record wrote.
    Duplicate { rec: u32 },
    /// The record reads a value that no record writes.
    Unmatched { rec: u32 },
    /// The record reads a value and finishes before its write starts.
    Early { rec: u32, clusters: List<Cluster> },
    /// None of these.
    Clear(List<Cluster>),
}

/// Sorts the operations of a valid key into clusters, or names the fault of the key with its least
/// record. A cluster is a write with all reads of its value (Gibbons and Korach 1997); ties of equal
/// ticks go to the lesser record. Takes time in proportion to the operations and the values.
/// The error says that memory ran out.
pub fn sort_key(alloc: Global, key: &KeyOps) -> Result<Sorted, Memory>
    requires { IsValidKey key.now }
    ensures { IfOk result (IsSorting (operations key.now)) }
{
    let mut table = match writes_of(alloc, key)? {
        Writes::Duplicate { rec } => return Ok(Sorted::Duplicate { rec }),
        Writes::Table(table) => table,
    };
    let early = match gather(&mut table, key) {
        Gathered::Unmatched { rec } => return Ok(Sorted::Unmatched { rec }),
        Gathered::Matched { early } => early,
    };
    let clusters = clusters_of(alloc, &table, key)?;
    match early {
        Some(rec) => Ok(Sorted::Early { rec, clusters }),
        None => Ok(Sorted::Clear(clusters)),
    }
}

/// The same operations are sorted in one way.
pub fn sortings_are_one()
    ensures { SortingsAreOne }
{}

/// The operations of a valid key are sorted in some way.
pub fn sortings_exist()
    ensures { SortingsExist }
{}

/// A valid key has fewer than 2^32 clusters.
pub fn clusters_are_few()
    ensures { ClustersAreFew }
{}

// The cluster of a write without reads.
fn lone_cluster(write: &Op) -> Cluster
    requires { latest_finish write.now < 2 ^ 64 }
    ensures { result ≡ lone_cluster write.now }
{
    Cluster {
        write: write.rec,
        f: write.latest_finish(),
        w: write.earliest_start(),
        s: None,
        first: write.rec,
        last: write.rec,
    }
}

// A table of the writes of a key, or why there is none.
#[derive(Drop)]
enum Writes {
    /// The record is the least one whose value a lesser record wrote.
    Duplicate { rec: u32 },
    /// One slot for each value, with the cluster of its write.
    Table(Vec<Option<Cluster>>),
}

// A slot for each value of a key, with the initial write in its own, and nothing in the others.
fn initial_table(alloc: Global, key: &KeyOps) -> Result<Vec<Option<Cluster>>, Memory>
    ensures { IfOk result
        (λ table. IsTable IsLone (initial_write ∷ []) (length key.now.values) table.items) }
{
    let slots = key.values.as_slice().len() + 1;
    let mut table = vec![in alloc; None; slots].map_err(|_| Memory)?;
    table[0] = Some(lone_cluster(&INITIAL_WRITE));
    Ok(table)
}

// The writes of a key, each in the slot of its value, or the first one whose slot is full.
fn writes_of(alloc: Global, key: &KeyOps) -> Result<Writes, Memory>
    requires { IsValidKey key.now }
    ensures { IfOk result (AreWrites key.now) }
{
    let mut table = initial_table(alloc, key)?;
    for op in key.ops.as_slice() {
        let value = op.value as usize;
        match (op.kind, table[value]) {
            (Kind::Read, _) => {}
            (Kind::Write, Some(_)) => return Ok(Writes::Duplicate { rec: op.rec }),
            (Kind::Write, None) => table[value] = Some(lone_cluster(op)),
        }
    }
    Ok(Writes::Table(table))
}

// The least latest finish of a cluster and one more operation of its value, and the least record
// with it.
fn least_finish(cluster: &Cluster, op: &Op) -> (u64, u32)
    requires { latest_finish op.now < 2 ^ 64 }
    ensures { (ops : List Op)
        → IsLeastFinish ops op.now.value cluster.now.f cluster.now.first
        → IsLeastFinish (ops ++ op.now ∷ []) op.now.value result.0 result.1 }
{
    let finish = op.latest_finish();
    match finish.cmp(&cluster.f) {
        Ordering::Less => (finish, op.rec),
        Ordering::Equal => (finish, cluster.first.min(op.rec)),
        Ordering::Greater => (cluster.f, cluster.first),
    }
}

// The greatest earliest start of the reads of a cluster and one more operation of its value, and the
// least record with it.
fn greatest_start(cluster: &Cluster, op: &Op) -> (Option<u64>, u32)
    ensures { (ops : List Op) (w : Op)
        → op.now.value ≡ w.value
        → AreReadsOf ops w cluster.now.s cluster.now.last
        → AreReadsOf (ops ++ op.now ∷ []) w result.0 result.1 }
{
    let start = op.earliest_start();
    match (op.kind, cluster.s) {
        (Kind::Write, s) => (s, cluster.last),
        (Kind::Read, None) => (Some(start), op.rec),
        (Kind::Read, Some(s)) => match start.cmp(&s) {
            Ordering::Less => (Some(s), cluster.last),
            Ordering::Equal => (Some(start), cluster.last.min(op.rec)),
            Ordering::Greater => (Some(start), op.rec),
        },
    }
}

// A cluster with one more operation of its value.
fn with_operation(cluster: &Cluster, op: &Op) -> Cluster
    requires { latest_finish op.now < 2 ^ 64 }
    ensures { (ops : List Op) (w : Op)
        → op.now.value ≡ w.value
        → IsClusterOf ops w cluster.now
        → IsClusterOf (ops ++ op.now ∷ []) w result }
{
    let (f, first) = least_finish(cluster, op);
    let (s, last) = greatest_start(cluster, op);
    Cluster {
        f,
        s,
        first,
        last,
        ..*cluster
    }
}

// What the operations of a key show as they are taken into the clusters of their values.
#[derive(Drop)]
enum Gathered {
    /// The record is the least one of a read whose value no record writes.
    Unmatched { rec: u32 },
    /// A record writes the value of each read. `early` is the least record of a read that has certainly
    /// finished before its write starts, if there is one.
    Matched { early: Option<u32> },
}

// The first early read so far, with one more operation of a cluster.
fn with_early(early: Option<u32>, cluster: &Cluster, op: &Op) -> Option<u32>
    requires { latest_finish op.now < 2 ^ 64 }
    ensures { IsEarlyWith early cluster.now op.now result }
{
    match (early, op.kind) {
        (Some(rec), _) => Some(rec),
        (None, Kind::Write) => None,
        (None, Kind::Read) => (op.latest_finish() < cluster.w).then_some(op.rec),
    }
}

// Takes the operations of a key into the clusters of their values, up to the first read whose value
// has no cluster, and tells the first early read.
fn gather(table: &mut [Option<Cluster>], key: &KeyOps) -> Gathered
    requires valid { IsValidKey key.now }
    requires writes { IsWriteTable key.now table.old }
    ensures { IsGathering key.now table.new result }
{
    let mut early = None;
    for op in key.ops.as_slice() {
        let value = op.value as usize;
        let Some(cluster) = table[value] else {
            return Gathered::Unmatched { rec: op.rec };
        };
        early = with_early(early, &cluster, op);
        table[value] = Some(with_operation(&cluster, op));
    }
    Gathered::Matched { early }
}

// The cluster of an operation, if it is a write.
fn cluster_in(table: &[Option<Cluster>], op: &Op) -> Option<Cluster>
    ensures { result ≡ cluster_in table.now op.now }
{
    match op.kind {
        Kind::Read => None,
        Kind::Write => table.get(op.value as usize).copied().flatten(),
    }
}

// The clusters of a table in the order of the writes, in a list with room for one of each slot.
fn clusters_in_order(
    alloc: Global,
    table: &[Option<Cluster>],
    key: &KeyOps,
) -> Result<Vec<Cluster>, AllocError>
    ensures { IfOk result
        (λ clusters. clusters.items ≡ filter_map (cluster_in table.now) (operations key.now)) }
{
    let mut clusters = Vec::with_capacity(alloc, table.len())?;
    clusters.extend(key.operations().filter_map(|op| cluster_in(table, &op)))?;
    Ok(clusters)
}

// The clusters of a key in the order of their writes.
fn clusters_of(
    alloc: Global,
    table: &[Option<Cluster>],
    key: &KeyOps,
) -> Result<List<Cluster>, Memory>
    requires valid { IsValidKey key.now }
    requires clusters { IsClusterTable key.now table.now }
    ensures { IfOk result (AreClusters (operations key.now)) }
{
    match clusters_in_order(alloc, table, key) {
        Ok(clusters) => Ok(List::from_vec(clusters)),
        Err(_) => Err(Memory),
    }
}
