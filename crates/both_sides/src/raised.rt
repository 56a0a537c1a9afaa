//! Clusters whose f is later.

ghost use Rattle.std.specs.Prelude.{◌≡◌, ◌^◌, ◌≤◌, ◌+◌, ◌<◌, All, IfOk};
ghost use Rattle.both_sides.specs.Raised.{raised_cluster, raised_clusters};
ghost use Rattle.both_sides.specs.Gaps.{HasTicks};

use stale_model::Cluster;
use std::alloc::{AllocError, Global};

// The cluster with its f later by t ticks; that of the initial write stays.
fn raised_cluster(t: u64, cluster: &Cluster) -> Cluster
    requires { cluster.now.f + t < 2 ^ 64 }
    ensures { result ≡ raised_cluster t cluster.now }
{
    let f = if cluster.write == 0 {
        cluster.f
    } else {
        cluster.f + t
    };
    Cluster { f, ..*cluster }
}

/// The clusters with f later by t ticks; that of the initial write stays. The error is want of memory.
pub(crate) fn raised_clusters(
    alloc: Global,
    t: u64,
    clusters: &[Cluster],
) -> Result<Vec<Cluster>, AllocError>
    requires raise { t ≤ 2 ^ 62 }
    requires ticks { All HasTicks clusters.now }
    ensures { IfOk result (λ raised. raised.items ≡ raised_clusters t clusters.now) }
{
    let mut raised = Vec::with_capacity(alloc, clusters.len())?;
    for cluster in clusters {
        raised.push(raised_cluster(t, cluster))?;
    }
    Ok(raised)
}
