//! The lines of the keys: how many operations a key has, and its verdict.
ghost use Rattle.std.specs.Prelude.{◌≡◌, ◌++◌, length, All, IfOk, OnOk};
ghost use Rattle.std.specs.String.{string_bytes};
ghost use Rattle.stale_model.specs.Operations.{operations};
ghost use Rattle.stale_model.specs.Valid.{IsValidKey};
ghost use Rattle.staleness_report.specs.Report.{write_of_value, cluster_of_record, pair_text, two_text, verdict_text, key_line, key_lines};

use crate::text::{escaped_name, push_count};
use stale_model::{Four, Judgement, KeyOps, Kind, Op, TwoPart, Verdict};
use std::alloc::{AllocError, Global};

// The record of the write of this value, of those but the initial write.
fn write_among(ops: &[Op], value: u32) -> u32
    ensures { result ≡ write_of_value ops.now value }
{
    for op in ops {
        if op.kind == Kind::Write && op.value == value {
            return op.rec;
        }
    }
    0
}

// The record of the write of this value.
fn write_of_value(key: &KeyOps, value: u32) -> u32
    ensures { result ≡ write_of_value (operations key.now) value }
{
    if value == 0 {
        0
    } else {
        write_among(key.ops.as_slice(), value)
    }
}

// The write record of the cluster of the operation with this record.
fn cluster_of_record(key: &KeyOps, rec: u32) -> u32
    requires { IsValidKey key.now }
    ensures { result ≡ cluster_of_record (operations key.now) rec }
{
    write_of_value(key, key.value_of(rec))
}

// Puts the pair that conflicts just below delta behind a text.
fn push_pair(text: &mut String, key: &KeyOps, four: &Option<Four>) -> Result<(), AllocError>
    requires { IsValidKey key.now }
    ensures { OnOk result (string_bytes text.new
        ≡ string_bytes text.old ++ pair_text (operations key.now) four.now) }
{
    let Some(four) = four else {
        return Ok(());
    };
    push_count(text, " pair ", u64::from(cluster_of_record(key, four.p)))?;
    push_count(text, " ", u64::from(cluster_of_record(key, four.q)))
}

// Whether a key is 2-atomic.
fn two_text(two: &TwoPart) -> &'static str
    ensures { result.now ≡ two_text two.now }
{
    match two {
        TwoPart::Yes(_) => " two yes",
        TwoPart::No(_) => " two no",
    }
}

// What is said of a judged key.
fn judgement_text(alloc: Global, key: &KeyOps, judgement: &Judgement) -> Result<String, AllocError>
    requires { IsValidKey key.now }
    ensures { IfOk result (λ text.
        string_bytes text ≡ verdict_text (operations key.now) (Verdict.Judged judgement.now)) }
{
    let mut text = String::new(alloc);
    push_count(&mut text, "delta ", judgement.delta)?;
    push_pair(&mut text, key, &judgement.four)?;
    text.push_str(two_text(&judgement.two))?;
    Ok(text)
}

// The end of a key's line.
fn verdict_text(alloc: Global, key: &KeyOps, verdict: &Verdict) -> Result<String, AllocError>
    requires { IsValidKey key.now }
    ensures { IfOk result (λ text.
        string_bytes text ≡ verdict_text (operations key.now) verdict.now) }
{
    match verdict {
        Verdict::Duplicate { rec } => format!(in alloc; "duplicate {rec}"),
        Verdict::Unmatched { rec } => format!(in alloc; "unmatched {rec}"),
        Verdict::Infinite { rec } => format!(in alloc; "infinite {rec} two no"),
        Verdict::Judged(judgement) => judgement_text(alloc, key, judgement),
    }
}

/// A key's line.
pub(crate) fn key_line(alloc: Global, key: &KeyOps, verdict: &Verdict) -> Result<String, AllocError>
    requires { IsValidKey key.now }
    ensures { IfOk result (λ text. string_bytes text ≡ key_line key.now verdict.now) }
{
    let mut text = String::from_str(alloc, "key ")?;
    text.push_str(&escaped_name(alloc, key.name.as_slice())?)?;
    push_count(&mut text, " operations ", key.ops.as_slice().len() as u64)?;
    text.push_str(" ")?;
    text.push_str(&verdict_text(alloc, key, verdict)?)?;
    text.push_str("\n")?;
    Ok(text)
}

/// The lines of all keys.
pub(crate) fn key_lines(
    alloc: Global,
    keys: &[KeyOps],
    verdicts: &[Verdict],
) -> Result<String, AllocError>
    requires valid { All IsValidKey keys.now }
    requires as_many { length verdicts.now ≡ length keys.now }
    ensures { IfOk result (λ text. string_bytes text ≡ key_lines keys.now verdicts.now) }
{
    let mut text = String::new(alloc);
    for (place, key) in keys.iter().enumerate() {
        let line = key_line(alloc, key, &verdicts[place])?;
        text.push_str(&line)?;
    }
    Ok(text)
}
