//! What `two` writes of a history.

ghost use Rattle.std.specs.Prelude.{◌≡◌, ◌++◌, ◌+◌, ◌<◌, ◌^◌, ℕ, List, Option, length, All, IfOk, OnOk};
ghost use Rattle.std.specs.String.{string_bytes};
ghost use Rattle.stale_model.specs.Operations.{operations};
ghost use Rattle.stale_model.specs.Valid.{IsValidKey, IsValidHistory};
ghost use Rattle.stale_model.specs.Faults.{IsClearKey};
ghost use Rattle.stale_model.specs.Clusters.{AreClusters};
ghost use Rattle.cert_text.specs.Texts.{lines_text};
ghost use Rattle.mode_texts.specs.Counting.{totals_of, IsWritten, IsWrittenBehind};
ghost use Rattle.mode_texts.specs.TwoTexts.{IsLeastOf, IsTwoVerdict, verdict_text, below_lines, shown_lines, two_key_text, delta_of, IsTwoText};

use crate::keys::push_name;
use crate::totals::Totals;
use cert_text::{push_order, push_refutation};
use clusters::{Sorted, sort_key};
use delta_score::op_order;
use stale_model::{Bytes, Cluster, History, KeyOps, List, Memory, Refutation};
use staleness_report::push_count;
use std::alloc::{AllocError, Global};
use two_delta::least_two;

/// What `two` says of a key without fault.
#[derive(Drop, Debug)]
pub struct LeastDelta {
    /// The least Δ for 2-atomicity, in ticks.
    pub delta: u64,
    /// The records of all operations, in an order at `delta`.
    pub order: List<u32>,
    /// Why there is none at `delta` - 1; nothing exactly where `delta` is 0.
    pub refutation: Option<Refutation>,
}

/// What `two` says of a key.
#[derive(Drop, Debug)]
pub enum TwoVerdict {
    /// The record writes a value that a lesser record wrote.
    Duplicate { rec: u32 },
    /// The record reads a value that no record writes.
    Unmatched { rec: u32 },
    /// The record reads a value and finishes before its write starts: there is no Δ.
    Infinite { rec: u32 },
    /// None of these.
    Least(LeastDelta),
}

// The least Δ of a clear key with these clusters, and what shows it.
fn least_of(alloc: Global, key: &KeyOps, clusters: &[Cluster]) -> Result<LeastDelta, Memory>
    requires valid { IsValidKey key.now }
    requires clear { IsClearKey (operations key.now) }
    requires clusters { AreClusters (operations key.now) clusters.now }
    ensures { IfOk result (IsLeastOf (operations key.now)) }
{
    let least = least_two(alloc, clusters)?;
    let order = op_order(alloc, least.delta, 2, key, least.listing.as_slice())?;
    Ok(LeastDelta {
        delta: least.delta,
        order,
        refutation: least.refutation,
    })
}

// What is said of a key.
fn two_verdict(alloc: Global, key: &KeyOps) -> Result<TwoVerdict, Memory>
    requires { IsValidKey key.now }
    ensures { IfOk result (IsTwoVerdict (operations key.now)) }
{
    match sort_key(alloc, key)? {
        Sorted::Duplicate { rec } => Ok(TwoVerdict::Duplicate { rec }),
        Sorted::Unmatched { rec } => Ok(TwoVerdict::Unmatched { rec }),
        Sorted::Early { rec, .. } => Ok(TwoVerdict::Infinite { rec }),
        Sorted::Clear(clusters) => {
            let least = least_of(alloc, key, clusters.as_slice())?;
            Ok(TwoVerdict::Least(least))
        }
    }
}

// The number of a key, if it has one.
fn delta_of(verdict: &TwoVerdict) -> Option<u64>
    ensures { result ≡ delta_of verdict.now }
{
    match verdict {
        TwoVerdict::Least(least) => Some(least.delta),
        _ => None,
    }
}

// Puts the end of a key's first line behind a text.
fn push_said(text: &mut String, verdict: &TwoVerdict) -> Result<(), AllocError>
    ensures { OnOk result
        (string_bytes text.new ≡ string_bytes text.old ++ verdict_text verdict.now) }
{
    match verdict {
        TwoVerdict::Duplicate { rec } => push_count(text, "duplicate ", u64::from(*rec)),
        TwoVerdict::Unmatched { rec } => push_count(text, "unmatched ", u64::from(*rec)),
        TwoVerdict::Infinite { rec } => push_count(text, "infinite ", u64::from(*rec)),
        TwoVerdict::Least(least) => push_count(text, "two ", least.delta),
    }
}

// Puts the lines of the refutation just below behind a text, where there is one.
fn push_below(text: &mut String, refutation: &Option<Refutation>) -> Result<(), AllocError>
    ensures { OnOk result (string_bytes text.new
        ≡ string_bytes text.old ++ lines_text (below_lines refutation.now)) }
{
    match refutation {
        Some(refutation) => push_refutation(text, refutation),
        None => Ok(()),
    }
}

// Puts the lines that show what is said behind a text.
fn push_shown(text: &mut String, verdict: &TwoVerdict) -> Result<(), AllocError>
    ensures { OnOk result (string_bytes text.new
        ≡ string_bytes text.old ++ lines_text (shown_lines verdict.now)) }
{
    if let TwoVerdict::Least(least) = verdict {
        push_order(text, least.order.as_slice())?;
        push_below(text, &least.refutation)?;
    }
    Ok(())
}

// Puts the lines of a key behind a text.
fn push_key(
    alloc: Global,
    text: &mut String,
    key: &KeyOps,
    verdict: &TwoVerdict,
) -> Result<(), AllocError>
    ensures { OnOk result (string_bytes text.new
        ≡ string_bytes text.old ++ two_key_text key.now verdict.now) }
{
    push_name(alloc, text, key)?;
    push_said(text, verdict)?;
    text.push_str("\n")?;
    push_shown(text, verdict)
}

// Puts the lines of a key behind a text, and counts its number.
fn write_key(
    alloc: Global,
    key: &KeyOps,
    text: &mut String,
    totals: &mut Totals,
) -> Result<(), Memory>
    requires valid { IsValidKey key.now }
    requires counted { (numbers : List (Option ℕ)) × (totals.old ≡ totals_of numbers)
        × (length numbers + 1 < 2 ^ 64) }
    ensures { OnOk result (IsWrittenBehind IsTwoVerdict two_key_text delta_of key.now
        (string_bytes text.old) (string_bytes text.new) totals.old totals.new) }
{
    let verdict = two_verdict(alloc, key)?;
    totals.add(delta_of(&verdict));
    match push_key(alloc, text, key, &verdict) {
        Ok(()) => Ok(()),
        Err(_) => Err(Memory),
    }
}

// The lines of all keys, and their totals.
fn keys_text(alloc: Global, keys: &[KeyOps]) -> Result<(String, Totals), Memory>
    requires valid { All IsValidKey keys.now }
    ensures { IfOk result (λ written. IsWritten IsTwoVerdict two_key_text delta_of keys.now
        (string_bytes written.0) written.1) }
{
    let mut text = String::new(alloc);
    let mut totals = Totals::new();
    for key in keys {
        write_key(alloc, key, &mut text, &mut totals)?;
    }
    Ok((text, totals))
}

/// What `two` writes of a history: for each key, in the order of the keys, `key NAME two D` with the least Δ for
/// 2-atomicity, an order there, and the refutation just below where D is above 0; or the fault of the key with its
/// record. The last line has totals.
///
/// # Errors
/// `Memory` may come at any time.
pub fn two_text(alloc: Global, history: &History) -> Result<Bytes, Memory>
    requires { IsValidHistory history.now }
    ensures { IfOk result (IsTwoText history.now) }
{
    let (mut text, totals) = keys_text(alloc, history.keys.as_slice())?;
    match totals.push_line(&mut text) {
        Ok(()) => Ok(Bytes::from_vec(text.into_bytes())),
        Err(_) => Err(Memory),
    }
}
