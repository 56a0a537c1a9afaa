//! What `sides` writes of a history.

ghost use Rattle.std.specs.Prelude.{◌≡◌, ◌++◌, ◌+◌, ◌<◌, ◌^◌, ℕ, List, Option, length, All, IfOk, OnOk};
ghost use Rattle.std.specs.String.{string_bytes};
ghost use Rattle.stale_model.specs.Operations.{operations};
ghost use Rattle.stale_model.specs.Valid.{IsValidKey, IsValidHistory};
ghost use Rattle.stale_model.specs.Faults.{IsMatchedKey};
ghost use Rattle.stale_model.specs.Clusters.{AreClusters};
ghost use Rattle.cert_text.specs.Texts.{lines_text};
ghost use Rattle.both_sides.specs.declared.least.Shown.{Shown};
ghost use Rattle.mode_texts.specs.declared.sides.SidesVerdict.{SidesVerdict};
ghost use Rattle.mode_texts.specs.Counting.{totals_of, IsWritten, IsWrittenBehind};
ghost use Rattle.mode_texts.specs.SidesTexts.{IsSidesVerdict, shown_text, verdict_text, order_lines, sides_key_text, g_of, IsSidesText};

use crate::keys::push_name;
use crate::totals::Totals;
use both_sides::{Shown, Sides, least_sides};
use cert_text::{push_numbers, push_order};
use clusters::{Sorted, sort_key};
use stale_model::{Bytes, Cluster, Four, History, KeyOps, Memory};
use staleness_report::push_count;
use std::alloc::{AllocError, Global};

/// What `sides` says of a key.
#[derive(Drop, Debug)]
pub enum SidesVerdict {
    /// The record writes a value that a lesser record wrote.
    Duplicate { rec: u32 },
    /// The record reads a value that no record writes.
    Unmatched { rec: u32 },
    /// Neither of these.
    Least(Sides),
}

// What is said of a key with these clusters.
fn least_of(alloc: Global, key: &KeyOps, clusters: &[Cluster]) -> Result<SidesVerdict, Memory>
    requires valid { IsValidKey key.now }
    requires matched { IsMatchedKey (operations key.now) }
    requires clusters { AreClusters (operations key.now) clusters.now }
    ensures { IfOk result (IsSidesVerdict (operations key.now)) }
{
    let sides = least_sides(alloc, key, clusters)?;
    Ok(SidesVerdict::Least(sides))
}

// What is said of a key.
fn sides_verdict(alloc: Global, key: &KeyOps) -> Result<SidesVerdict, Memory>
    requires { IsValidKey key.now }
    ensures { IfOk result (IsSidesVerdict (operations key.now)) }
{
    match sort_key(alloc, key)? {
        Sorted::Duplicate { rec } => Ok(SidesVerdict::Duplicate { rec }),
        Sorted::Unmatched { rec } => Ok(SidesVerdict::Unmatched { rec }),
        Sorted::Early { clusters, .. } => least_of(alloc, key, clusters.as_slice()),
        Sorted::Clear(clusters) => least_of(alloc, key, clusters.as_slice()),
    }
}

// The number of a key, if it has one.
fn g_of(verdict: &SidesVerdict) -> Option<u64>
    ensures { result ≡ g_of verdict.now }
{
    match verdict {
        SidesVerdict::Least(sides) => Some(sides.g),
        _ => None,
    }
}

// Puts the four records of a pair behind a text.
fn push_pair(text: &mut String, four: &Four) -> Result<(), AllocError>
    ensures { OnOk result (string_bytes text.new
        ≡ string_bytes text.old ++ shown_text (Shown.Pair four.now)) }
{
    text.push_str(" pair")?;
    push_numbers(text, &[four.p, four.q, four.q2, four.p2])
}

// Puts what shows that nothing less will do behind a text.
fn push_shown(text: &mut String, shown: &Shown) -> Result<(), AllocError>
    ensures { OnOk result
        (string_bytes text.new ≡ string_bytes text.old ++ shown_text shown.now) }
{
    match shown {
        Shown::Nothing => Ok(()),
        Shown::Early { rec } => push_count(text, " early ", u64::from(*rec)),
        Shown::Pair(four) => push_pair(text, four),
    }
}

// Puts a number, and what shows that nothing less will do, behind a text.
fn push_least(text: &mut String, sides: &Sides) -> Result<(), AllocError>
    ensures { OnOk result (string_bytes text.new
        ≡ string_bytes text.old ++ verdict_text (SidesVerdict.Least sides.now)) }
{
    push_count(text, "sides ", sides.g)?;
    push_shown(text, &sides.shown)
}

// Puts the end of a key's first line behind a text.
fn push_said(text: &mut String, verdict: &SidesVerdict) -> Result<(), AllocError>
    ensures { OnOk result
        (string_bytes text.new ≡ string_bytes text.old ++ verdict_text verdict.now) }
{
    match verdict {
        SidesVerdict::Duplicate { rec } => push_count(text, "duplicate ", u64::from(*rec)),
        SidesVerdict::Unmatched { rec } => push_count(text, "unmatched ", u64::from(*rec)),
        SidesVerdict::Least(sides) => push_least(text, sides),
    }
}

// Puts the line of the order behind a text, where there is one.
fn push_shown_order(text: &mut String, verdict: &SidesVerdict) -> Result<(), AllocError>
    ensures { OnOk result (string_bytes text.new
        ≡ string_bytes text.old ++ lines_text (order_lines verdict.now)) }
{
    match verdict {
        SidesVerdict::Least(sides) => push_order(text, sides.order.as_slice()),
        _ => Ok(()),
    }
}

// Puts the lines of a key behind a text.
fn push_key(
    alloc: Global,
    text: &mut String,
    key: &KeyOps,
    verdict: &SidesVerdict,
) -> Result<(), AllocError>
    ensures { OnOk result (string_bytes text.new
        ≡ string_bytes text.old ++ sides_key_text key.now verdict.now) }
{
    push_name(alloc, text, key)?;
    push_said(text, verdict)?;
    text.push_str("\n")?;
    push_shown_order(text, verdict)
}

// Puts the lines of a key behind a text, and counts its number.
fn write_key(
    alloc: Global,
    key: &KeyOps,
    text: &mut String,
    totals: &mut Totals,
) -> Result<(), Memory>
    requires valid { IsValidKey key.now }
    requires counted { (numbers : List (Option ℕ)) × (totals.old ≡ totals_of numbers)
        × (length numbers + 1 < 2 ^ 64) }
    ensures { OnOk result (IsWrittenBehind IsSidesVerdict sides_key_text g_of key.now
        (string_bytes text.old) (string_bytes text.new) totals.old totals.new) }
{
    let verdict = sides_verdict(alloc, key)?;
    totals.add(g_of(&verdict));
    match push_key(alloc, text, key, &verdict) {
        Ok(()) => Ok(()),
        Err(_) => Err(Memory),
    }
}

// The lines of all keys, and their totals.
fn keys_text(alloc: Global, keys: &[KeyOps]) -> Result<(String, Totals), Memory>
    requires valid { All IsValidKey keys.now }
    ensures { IfOk result (λ written. IsWritten IsSidesVerdict sides_key_text g_of keys.now
        (string_bytes written.0) written.1) }
{
    let mut text = String::new(alloc);
    let mut totals = Totals::new();
    for key in keys {
        write_key(alloc, key, &mut text, &mut totals)?;
    }
    Ok((text, totals))
}

/// What `sides` writes of a history: for each key, in the order of the keys, `key NAME sides G` with the least number of
/// ticks by which both ends of its operations have to be moved, what shows that nothing less will do, and an order
/// there; or the fault of the key with its record. The last line has totals.
///
/// # Errors
/// `Memory` may come at any time.
pub fn sides_text(alloc: Global, history: &History) -> Result<Bytes, Memory>
    requires { IsValidHistory history.now }
    ensures { IfOk result (IsSidesText history.now) }
{
    let (mut text, totals) = keys_text(alloc, history.keys.as_slice())?;
    match totals.push_line(&mut text) {
        Ok(()) => Ok(Bytes::from_vec(text.into_bytes())),
        Err(_) => Err(Memory),
    }
}
