//! The last line: totals over all keys.
ghost use Rattle.std.specs.Prelude.{◌≡◌, ◌+◌, ◌<◌, ◌≤◌, ◌^◌, ◌++◌, ◌∷◌, [], List, length, IfOk, OnOk, sum_by};
ghost use Rattle.std.specs.String.{string_bytes};
ghost use Rattle.stale_model.specs.Valid.{IsValidHistory};
ghost use Rattle.stale_model.specs.declared.Verdict.{Verdict};
ghost use Rattle.staleness_report.specs.Report.{worse, delta_text, sizes_text, faults_text, deltas_text, total_line};
ghost use Rattle.staleness_report.specs.Counting.{totals_of};

use crate::text::push_count;
use stale_model::{History, Judgement, KeyOps, TwoPart, Verdict};
use std::alloc::{AllocError, Global};

/// How many of some verdicts are of each kind, and the greatest delta of those that judge.
#[derive(Clone, Copy)]
pub(crate) struct Totals {
    pub(crate) duplicate: u64,
    pub(crate) unmatched: u64,
    pub(crate) infinite: u64,
    /// Judged with delta 0.
    pub(crate) atomic: u64,
    /// Judged with an order in which each read returns one of the last two writes.
    pub(crate) two_atomic: u64,
    pub(crate) worst: Option<u64>,
}

// The greater of a judgement's delta and of the worst so far.
fn worse(judgement: &Judgement, worst: Option<u64>) -> u64
    ensures { Some result ≡ worse (Verdict.Judged judgement.now) worst }
{
    match worst {
        None => judgement.delta,
        Some(delta) => judgement.delta.max(delta),
    }
}

impl Totals {
    // The totals of no verdicts.
    fn new() -> Totals
        ensures { result ≡ totals_of [] }
    {
        Totals {
            duplicate: 0,
            unmatched: 0,
            infinite: 0,
            atomic: 0,
            two_atomic: 0,
            worst: None,
        }
    }

    // Counts one more verdict, which judges a key.
    fn add_judged(&mut self, judgement: &Judgement)
        requires { (counted : List Verdict) × (self.old ≡ totals_of counted)
            × (length counted + 1 < 2 ^ 64) }
        ensures { (counted : List Verdict) → self.old ≡ totals_of counted
            → self.new ≡ totals_of (counted ++ Verdict.Judged judgement.now ∷ []) }
    {
        if judgement.delta == 0 {
            self.atomic += 1;
        }
        if matches!(judgement.two, TwoPart::Yes(_)) {
            self.two_atomic += 1;
        }
        self.worst = Some(worse(judgement, self.worst));
    }

    // Counts one more verdict.
    fn add(&mut self, verdict: &Verdict)
        requires { (counted : List Verdict) × (self.old ≡ totals_of counted)
            × (length counted + 1 < 2 ^ 64) }
        ensures { (counted : List Verdict) → self.old ≡ totals_of counted
            → self.new ≡ totals_of (counted ++ verdict.now ∷ []) }
    {
        match verdict {
            Verdict::Duplicate { .. } => self.duplicate += 1,
            Verdict::Unmatched { .. } => self.unmatched += 1,
            Verdict::Infinite { .. } => self.infinite += 1,
            Verdict::Judged(judgement) => self.add_judged(judgement),
        }
    }

    // The totals of all verdicts.
    fn of(verdicts: &[Verdict]) -> Totals
        ensures { result ≡ totals_of verdicts.now }
    {
        let mut totals = Totals::new();
        for verdict in verdicts {
            totals.add(verdict);
        }
        totals
    }
}

// How many operations the keys have together.
fn operation_count(keys: &[KeyOps]) -> u64
    requires { sum_by (λ key. length key.ops) keys.now ≤ 1000000 }
    ensures { result ≡ sum_by (λ key. length key.ops) keys.now }
{
    keys.iter().map(|key| key.ops.as_slice().len() as u64).sum()
}

// How many keys, operations and skipped reads there are.
fn sizes_text(alloc: Global, history: &History) -> Result<String, AllocError>
    requires { IsValidHistory history.now }
    ensures { IfOk result (λ text. string_bytes text ≡ sizes_text history.now) }
{
    let keys = history.keys.as_slice();
    let mut text = String::new(alloc);
    push_count(&mut text, "total keys ", keys.len() as u64)?;
    push_count(&mut text, " operations ", operation_count(keys))?;
    push_count(&mut text, " skipped ", u64::from(history.skipped))?;
    Ok(text)
}

// How many keys have each kind of fault.
fn faults_text(alloc: Global, totals: &Totals) -> Result<String, AllocError>
    ensures { IfOk result (λ text. (verdicts : List Verdict) → totals.now ≡ totals_of verdicts
        → string_bytes text ≡ faults_text verdicts) }
{
    let mut text = String::new(alloc);
    push_count(&mut text, " duplicate ", totals.duplicate)?;
    push_count(&mut text, " unmatched ", totals.unmatched)?;
    push_count(&mut text, " infinite ", totals.infinite)?;
    Ok(text)
}

// Puts a delta behind a text, or that there is none.
fn push_delta(text: &mut String, delta: Option<u64>) -> Result<(), AllocError>
    ensures { OnOk result (string_bytes text.new ≡ string_bytes text.old ++ delta_text delta) }
{
    match delta {
        Some(delta) => write!(text, "{delta}"),
        None => text.push_str("none"),
    }
}

// How many keys are atomic and 2-atomic, and the worst delta.
fn deltas_text(alloc: Global, totals: &Totals) -> Result<String, AllocError>
    ensures { IfOk result (λ text. (verdicts : List Verdict) → totals.now ≡ totals_of verdicts
        → string_bytes text ≡ deltas_text verdicts) }
{
    let mut text = String::new(alloc);
    push_count(&mut text, " atomic ", totals.atomic)?;
    push_count(&mut text, " two ", totals.two_atomic)?;
    text.push_str(" worst ")?;
    push_delta(&mut text, totals.worst)?;
    Ok(text)
}

/// The last line.
pub(crate) fn total_line(
    alloc: Global,
    history: &History,
    verdicts: &[Verdict],
) -> Result<String, AllocError>
    requires { IsValidHistory history.now }
    ensures { IfOk result (λ text. string_bytes text ≡ total_line history.now verdicts.now) }
{
    let totals = Totals::of(verdicts);
    let mut text = sizes_text(alloc, history)?;
    text.push_str(&faults_text(alloc, &totals)?)?;
    text.push_str(&deltas_text(alloc, &totals)?)?;
    text.push_str("\n")?;
    Ok(text)
}
