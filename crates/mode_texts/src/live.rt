//! What `live` writes of a history.

ghost use Rattle.std.specs.Prelude.{◌≡◌, ◌++◌, ◌<◌, ◌≤◌, ◌^◌, length, map, flat_map, All, IfOk, OnOk, MatchOption};
ghost use Rattle.std.specs.String.{string_bytes};
ghost use Rattle.std.specs.Fmt.{decimal};
ghost use Rattle.stale_model.specs.Operations.{operations};
ghost use Rattle.stale_model.specs.Valid.{IsValidKey, IsValidHistory};
ghost use Rattle.stale_model.specs.Faults.{HasNone, IsDuplicate, IsDuplicateKey};
ghost use Rattle.mode_texts.specs.LiveTexts.{IsLiveVerdict, IsLiveText, score_text, change_text, waiting_texts, said_of, key_line, live_key_text, lines_line};
ghost use Rattle.mode_texts.specs.LiveSteps.{IsLiveWritten, IsLiveWrittenBehind};

use crate::changes::scored;
use crate::keys::push_name;
use clusters::{Sorted, sort_key};
use stale_model::{Bytes, History, KeyOps, List, Memory};
use staleness_report::push_count;
use std::alloc::{AllocError, Global};

/// A change of a key's score.
#[derive(Clone, Copy, Debug)]
pub struct Change {
    /// The record of the operation after which the score is another.
    pub rec: u32,
    /// The score from then on: the least Δ, in ticks, of the operations that count, or none where they have none.
    pub score: Option<u64>,
}

/// What `live` says of a key.
#[derive(Drop, Debug)]
pub enum LiveVerdict {
    /// The record writes a value that a lesser record wrote.
    Duplicate { rec: u32 },
    /// The changes of the score, as the operations are fed in the order in which they finish, and how many reads still
    /// wait for their write after the last.
    Scored { changes: List<Change>, waiting: u32 },
}

// The record that makes a key a duplicate one, if it is.
fn duplicate_of(alloc: Global, key: &KeyOps) -> Result<Option<u32>, Memory>
    requires { IsValidKey key.now }
    ensures { IfOk result (λ found. MatchOption found
        (HasNone (IsDuplicate (operations key.now))) (IsDuplicateKey (operations key.now))) }
{
    match sort_key(alloc, key)? {
        Sorted::Duplicate { rec } => Ok(Some(rec)),
        Sorted::Unmatched { .. } | Sorted::Early { .. } | Sorted::Clear(_) => Ok(None),
    }
}

// What is said of a key.
fn live_verdict(alloc: Global, key: &KeyOps) -> Result<LiveVerdict, Memory>
    requires { IsValidKey key.now }
    ensures { IfOk result (IsLiveVerdict (operations key.now)) }
{
    match duplicate_of(alloc, key)? {
        Some(rec) => Ok(LiveVerdict::Duplicate { rec }),
        None => scored(alloc, key),
    }
}

// How many lines say this of a key.
fn line_count(verdict: &LiveVerdict) -> u64
    requires { length (said_of verdict.now) < 2 ^ 64 }
    ensures { result ≡ length (said_of verdict.now) }
{
    match verdict {
        LiveVerdict::Duplicate { .. } => 1,
        LiveVerdict::Scored { changes, waiting } => {
            let changes = changes.as_slice().len() as u64;
            if *waiting == 0 { changes } else { changes + 1 }
        }
    }
}

// Puts a score behind a text, or that there is none.
fn push_score(text: &mut String, score: Option<u64>) -> Result<(), AllocError>
    ensures { OnOk result (string_bytes text.new ≡ string_bytes text.old ++ score_text score) }
{
    match score {
        Some(score) => push_count(text, " delta ", score),
        None => text.push_str(" infinite"),
    }
}

// Puts the line of a change behind a text.
fn push_change(
    alloc: Global,
    text: &mut String,
    key: &KeyOps,
    change: &Change,
) -> Result<(), AllocError>
    ensures { OnOk result (string_bytes text.new
        ≡ string_bytes text.old ++ key_line key.now (change_text change.now)) }
{
    push_name(alloc, text, key)?;
    push_count(text, "record ", u64::from(change.rec))?;
    push_score(text, change.score)?;
    text.push_str("\n")
}

// Puts the lines of changes behind a text.
fn push_changes(
    alloc: Global,
    text: &mut String,
    key: &KeyOps,
    changes: &[Change],
) -> Result<(), AllocError>
    ensures { OnOk result (string_bytes text.new ≡ string_bytes text.old
        ++ flat_map (λ said. key_line key.now said) (map change_text changes.now)) }
{
    for change in changes {
        push_change(alloc, text, key, change)?;
    }
    Ok(())
}

// Puts a line of a label and a number behind a text.
fn push_number(
    alloc: Global,
    text: &mut String,
    key: &KeyOps,
    label: &str,
    number: u32,
) -> Result<(), AllocError>
    ensures { OnOk result (string_bytes text.new
        ≡ string_bytes text.old ++ key_line key.now (label.now ++ decimal number)) }
{
    push_name(alloc, text, key)?;
    push_count(text, label, u64::from(number))?;
    text.push_str("\n")
}

// Puts the line of the reads that wait behind a text, where there are any.
fn push_waiting(
    alloc: Global,
    text: &mut String,
    key: &KeyOps,
    waiting: u32,
) -> Result<(), AllocError>
    ensures { OnOk result (string_bytes text.new ≡ string_bytes text.old
        ++ flat_map (λ said. key_line key.now said) (waiting_texts waiting)) }
{
    if waiting == 0 {
        return Ok(());
    }
    push_number(alloc, text, key, "waiting ", waiting)
}

// Puts the lines of a key behind a text.
fn push_key(
    alloc: Global,
    text: &mut String,
    key: &KeyOps,
    verdict: &LiveVerdict,
) -> Result<(), AllocError>
    ensures { OnOk result (string_bytes text.new
        ≡ string_bytes text.old ++ live_key_text key.now verdict.now) }
{
    match verdict {
        LiveVerdict::Duplicate { rec } => push_number(alloc, text, key, "duplicate ", *rec),
        LiveVerdict::Scored { changes, waiting } => {
            push_changes(alloc, text, key, changes.as_slice())?;
            push_waiting(alloc, text, key, *waiting)
        }
    }
}

// Puts the lines of a key behind a text, and tells how many they are.
fn write_key(alloc: Global, key: &KeyOps, text: &mut String) -> Result<u64, Memory>
    requires { IsValidKey key.now }
    ensures written { IfOk result (IsLiveWrittenBehind key.now
        (string_bytes text.old) (string_bytes text.new)) }
    ensures few { IfOk result (λ lines. lines ≤ 1000001) }
{
    let verdict = live_verdict(alloc, key)?;
    push_key(alloc, text, key, &verdict).map_err(|_| Memory)?;
    Ok(line_count(&verdict))
}

// A text, and how many lines it has.
#[derive(Drop)]
struct Lines {
    text: String,
    count: u64,
}

// The lines of all keys.
fn keys_text(alloc: Global, keys: &[KeyOps]) -> Result<Lines, Memory>
    requires valid { All IsValidKey keys.now }
    requires few { length keys.now ≤ 1000000 }
    ensures { IfOk result (λ lines. IsLiveWritten keys.now
        (string_bytes lines.text) lines.count) }
{
    let mut text = String::new(alloc);
    let mut count = 0;
    for key in keys {
        let more = write_key(alloc, key, &mut text)?;
        count += more;
    }
    Ok(Lines { text, count })
}

// Puts the last line behind a text, for the number of lines before it.
fn push_total(text: &mut String, lines: u64) -> Result<(), AllocError>
    ensures { OnOk result (string_bytes text.new ≡ string_bytes text.old ++ lines_line lines) }
{
    push_count(text, "total lines ", lines)?;
    text.push_str("\n")?;
    Ok(())
}

/// What `live` writes of a history: for each key, in the order of the keys, `key NAME record R delta D`, or `key NAME
/// record R infinite`, at each operation after which its score differs from the one before, where operations are fed in
/// the order in which they finish, and on a tie by record; then `key NAME waiting N` where reads still wait for their
/// write. Of a key that writes a value twice there is `key NAME duplicate R` alone. The last line has the number of lines
/// before it. Takes time n log n in the operations.
///
/// # Errors
/// `Memory` may come at any time.
pub fn live_text(alloc: Global, history: &History) -> Result<Bytes, Memory>
    requires { IsValidHistory history.now }
    ensures { IfOk result (IsLiveText history.now) }
{
    let Lines { mut text, count } = keys_text(alloc, history.keys.as_slice())?;
    match push_total(&mut text, count) {
        Ok(()) => Ok(Bytes::from_vec(text.into_bytes())),
        Err(_) => Err(Memory),
    }
}
