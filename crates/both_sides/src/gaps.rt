//! By how much f of clusters has to be later for a key to be atomic, from one sort and one pass.

ghost use Rattle.std.specs.Prelude.{◌≡◌, ◌^◌, ◌≤◌, map, All, IfOk};
ghost use Rattle.stale_model.specs.Clusters.{WriteRecordsDiffer};
ghost use Rattle.both_sides.specs.Raised.{IsGap};
ghost use Rattle.both_sides.specs.Gaps.{HasTicks, span_of, rank_of, AreSpans, IsGreatestGap};

use stale_model::{Cluster, Memory};
use std::alloc::{AllocError, Global};
use zones::last_start;

/// The numbers of a cluster that decide its gaps to others.
#[derive(Clone, Copy)]
struct Span {
    /// The record of the write.
    write: u32,
    /// The least latest finish of the operations.
    f: u64,
    /// The earliest start of the write.
    w: u64,
    /// The greatest earliest start of the operations.
    s: u64,
}

fn span_of(cluster: &Cluster) -> Span
    ensures { result ≡ span_of cluster.now }
{
    Span {
        write: cluster.write,
        f: cluster.f,
        w: cluster.w,
        s: last_start(0, cluster),
    }
}

// By what spans are put in order: the initial write's is first, the others stand by f + s.
fn rank_of(span: &Span) -> u64
    ensures { result ≡ rank_of span.now }
{
    if span.write == 0 {
        0
    } else {
        span.f.saturating_add(span.s)
    }
}

// The spans of all clusters, as they stand.
fn spans_of(alloc: Global, clusters: &[Cluster]) -> Result<Vec<Span>, AllocError>
    ensures { IfOk result (λ spans. spans.items ≡ map span_of clusters.now) }
{
    clusters
        .iter()
        .map(|cluster| span_of(cluster))
        .collect(alloc)
}

// The spans of all clusters by rank. Of two spans, the gap from the later one's f to the earlier one's s is the lesser.
fn spans_by_rank(alloc: Global, clusters: &[Cluster]) -> Result<Vec<Span>, AllocError>
    ensures { IfOk result (λ spans. AreSpans clusters.now spans.items) }
{
    let mut spans = spans_of(alloc, clusters)?;
    spans.sort_by_key(|span| rank_of(span))?;
    Ok(spans)
}

// The greatest gap from f of a span to s of an earlier one, or to w of its own.
fn greatest_of(spans: &[Span]) -> u64
    ensures { IsGreatestGap spans.now result }
{
    let mut greatest_start = 0;
    let mut gap: u64 = 0;
    for span in spans {
        gap = gap.max(span.w.max(greatest_start).saturating_sub(span.f));
        greatest_start = greatest_start.max(span.s);
    }
    gap
}

/// The least raise of f from which on no cluster is early and no two are in conflict at 0. Takes time n log n in the
/// clusters. The error is want of memory.
pub(crate) fn greatest_gap(alloc: Global, clusters: &[Cluster]) -> Result<u64, Memory>
    requires differ { WriteRecordsDiffer clusters.now }
    requires ticks { All HasTicks clusters.now }
    ensures gap { IfOk result (IsGap clusters.now) }
    ensures small { IfOk result (λ gap. gap ≤ 2 ^ 62) }
{
    let Ok(spans) = spans_by_rank(alloc, clusters) else {
        return Err(Memory);
    };
    Ok(greatest_of(&spans))
}
