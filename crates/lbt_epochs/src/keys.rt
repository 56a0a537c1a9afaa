//! What clusters are sorted by: a tick of each, its write record and its place.
ghost use Rattle.std.specs.Prelude.{◌≡◌, ◌<◌, ◌^◌, true, length, map, is_some, IfOk, OnOk};
ghost use Rattle.stale_model.specs.Zones.{reads_start};
ghost use Rattle.lbt_epochs.specs.Lists.{cluster_at};
ghost use Rattle.lbt_epochs.specs.Keys.{key_at, keys_of, falling_order, late_order};

use stale_model::Cluster;
use std::alloc::{AllocError, Global};
use std::cmp::Ordering;

/// What a cluster is sorted by: a tick of it, and on a tie its write record. Its place stands beside.
#[derive(Clone, Copy)]
pub(crate) struct Key {
    tick: u64,
    write: u32,
    at: u32,
}

/// Keys stand by falling tick, then by falling record.
pub(crate) fn falling_cmp(a: &Key, b: &Key) -> Ordering
    ensures { result ≡ falling_order a.now b.now }
{
    b.tick.cmp(&a.tick).then(b.write.cmp(&a.write))
}

/// Keys stand by falling tick, then by rising record.
pub(crate) fn late_cmp(a: &Key, b: &Key) -> Ordering
    ensures { result ≡ late_order a.now b.now }
{
    b.tick.cmp(&a.tick).then(a.write.cmp(&b.write))
}

// The cluster at a place by its f.
fn finish_key(clusters: &[Cluster], at: u32) -> Key
    requires { at < length clusters.now }
    ensures { result ≡ key_at (λ c. c.f) clusters.now at }
{
    let cluster = clusters[at as usize];
    Key {
        tick: cluster.f,
        write: cluster.write,
        at,
    }
}

// The cluster at a place by the start of its write.
fn write_key(clusters: &[Cluster], at: u32) -> Key
    requires { at < length clusters.now }
    ensures { result ≡ key_at (λ c. c.w) clusters.now at }
{
    let cluster = clusters[at as usize];
    Key {
        tick: cluster.w,
        write: cluster.write,
        at,
    }
}

// The cluster at a place by the start of its last read.
fn reads_key(clusters: &[Cluster], at: u32) -> Key
    requires { at < length clusters.now }
    ensures { result ≡ key_at reads_start clusters.now at }
{
    let cluster = clusters[at as usize];
    Key {
        tick: cluster.reads_start(),
        write: cluster.write,
        at,
    }
}

// Whether the cluster at a place has reads.
fn has_reads(clusters: &[Cluster], at: u32) -> bool
    requires { at < length clusters.now }
    ensures { result ≡ is_some (cluster_at clusters.now at).s }
{
    clusters[at as usize].s.is_some()
}

/// The keys are those of the clusters by f.
pub(crate) fn fill_by_finish(keys: &mut Vec<Key>, clusters: &[Cluster]) -> Result<(), AllocError>
    requires few { length clusters.now < 2 ^ 32 }
    ensures { OnOk result (keys.new.items ≡ keys_of (λ c. true) (λ c. c.f) clusters.now) }
{
    keys.clear();
    keys.extend((0..clusters.len() as u32).map(|at| finish_key(clusters, at)))
}

/// The keys are those of the clusters by the start of the write.
pub(crate) fn fill_by_write(keys: &mut Vec<Key>, clusters: &[Cluster]) -> Result<(), AllocError>
    requires few { length clusters.now < 2 ^ 32 }
    ensures { OnOk result (keys.new.items ≡ keys_of (λ c. true) (λ c. c.w) clusters.now) }
{
    keys.clear();
    keys.extend((0..clusters.len() as u32).map(|at| write_key(clusters, at)))
}

/// The keys are those of the clusters with reads by the start of the last read.
pub(crate) fn fill_by_reads(keys: &mut Vec<Key>, clusters: &[Cluster]) -> Result<(), AllocError>
    requires few { length clusters.now < 2 ^ 32 }
    ensures { OnOk result (keys.new.items ≡ keys_of (λ c. is_some c.s) reads_start clusters.now) }
{
    keys.clear();
    let with_reads = (0..clusters.len() as u32).filter(|at| has_reads(clusters, *at));
    keys.extend(with_reads.map(|at| reads_key(clusters, at)))
}

/// The places alone.
pub(crate) fn places_in(alloc: Global, keys: &[Key]) -> Result<Vec<u32>, AllocError>
    ensures { IfOk result (λ places. places.items ≡ map (λ key. key.at) keys.now) }
{
    keys.iter().map(|key| key.at).collect(alloc)
}
