//! The lines of a history and of a journal file.
ghost use Rattle.std.specs.Prelude.{◌≡◌, ◌⊎◌, ◌+◌, ◌<◌, ◌-◌, ◌^◌, Err, None, length};
ghost use Rattle.cert_text.specs.Words.{lines_of};
ghost use Rattle.trace_check.specs.Reading.{lines_read, read_call, read_entry, calls_read, entries_read};

use crate::TraceFault;
use crate::lines::{call_of, entry_of};
use cert_text::next_line;
use stale_model::{Entry, JournalEntry, List, Memory, Settings};
use std::alloc::Global;

// The calls that the lines after the header of a history read as.
fn calls_after(alloc: Global, settings: &Settings, text: &[u8]) -> Result<List<Entry>, TraceFault>
    requires { length text.now + 2 < 2 ^ 32 }
    ensures { (result ≡ Err TraceFault.Memory)
        ⊎ (result ≡ lines_read TraceFault.History (read_call settings.now) 2 None (lines_of text.now)) }
{
    let mut calls = Vec::new(alloc);
    let mut number: u32 = 2;
    let mut rest = text;
    while let Some((line, after)) = next_line(rest) {
        let Some(call) = call_of(settings, line) else {
            return Err(TraceFault::History { line: number });
        };
        calls.push(call).map_err(|_| Memory)?;
        number += 1;
        rest = after;
    }
    if rest.is_empty() {
        Ok(List::from_vec(calls))
    } else {
        Err(TraceFault::History { line: number })
    }
}

/// The calls that a history reads as.
pub(crate) fn calls_read(
    alloc: Global,
    settings: &Settings,
    history: &[u8],
) -> Result<List<Entry>, TraceFault>
    requires { length history.now < 2 ^ 32 - 1 }
    ensures { (result ≡ Err TraceFault.Memory) ⊎ (result ≡ calls_read settings.now history.now) }
{
    match history.strip_prefix(b"client,op,key,value,start,finish,seq,took\n".as_slice()) {
        Some(text) => calls_after(alloc, settings, text),
        None => Err(TraceFault::History { line: 1 }),
    }
}

// The entries that the lines after the header of a journal file read as.
fn entries_after(
    alloc: Global,
    settings: &Settings,
    text: &[u8],
) -> Result<List<JournalEntry>, TraceFault>
    requires { length text.now + 2 < 2 ^ 32 }
    ensures { (result ≡ Err TraceFault.Memory)
        ⊎ (result ≡ lines_read TraceFault.Journal (read_entry settings.now) 2 None (lines_of text.now)) }
{
    let mut entries = Vec::new(alloc);
    let mut least = 0;
    let mut number: u32 = 2;
    let mut rest = text;
    while let Some((line, after)) = next_line(rest) {
        let Some(entry) = entry_of(settings, least, line) else {
            return Err(TraceFault::Journal { line: number });
        };
        least = entry.reply.replica;
        entries.push(entry).map_err(|_| Memory)?;
        number += 1;
        rest = after;
    }
    if rest.is_empty() {
        Ok(List::from_vec(entries))
    } else {
        Err(TraceFault::Journal { line: number })
    }
}

/// The entries that a journal file reads as.
pub(crate) fn entries_read(
    alloc: Global,
    settings: &Settings,
    journal: &[u8],
) -> Result<List<JournalEntry>, TraceFault>
    requires { length journal.now < 2 ^ 32 - 1 }
    ensures { (result ≡ Err TraceFault.Memory) ⊎ (result ≡ entries_read settings.now journal.now) }
{
    match journal.strip_prefix(b"replica,serve,client,seq,start,key,op,value,stamp\n".as_slice()) {
        Some(text) => entries_after(alloc, settings, text),
        None => Err(TraceFault::Journal { line: 1 }),
    }
}
