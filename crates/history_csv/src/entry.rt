//! One record of a history file.
ghost use Rattle.std.specs.Prelude.{◌≡◌, ◌<◌, ◌≤◌, length, option_map, IfSome};
ghost use Rattle.csv.specs.Records.{fields_of};
ghost use Rattle.history_csv.specs.Entries.{text_of, number_of, number_within, kind_of, client_of, value_of, tick_of, finish_of, finish_after, slack_of, slack_at, entry_of};
ghost use Rattle.history_csv.specs.Numbering.{is_skipped};
ghost use Rattle.history_csv.specs.Building.{StandsWithin};

use crate::HistoryFault;
use crate::header::{Columns, field};
use csv::ByteRecord;
use stale_model::Kind;
use std::marker::Model;

// The greatest tick, and the greatest slack.
const GREATEST_TICK: u64 = 4_611_686_018_427_387_903;

/// What a record says. Contracts see its key and its value as texts.
#[derive(Drop)]
pub(crate) struct Entry<'r> {
    pub(crate) rec: u32,
    pub(crate) client: u32,
    pub(crate) kind: Kind,
    pub(crate) key: &'r [u8],
    pub(crate) value: &'r [u8],
    pub(crate) start: u64,
    /// None where the operation never finished.
    pub(crate) finish: Option<u64>,
    pub(crate) slack: u64,
}

impl<'r> Model for Entry<'r> {
    ghost use Rattle.history_csv.specs.Entries.{Entry};

    ghost Value = { Entry };

    ghost view = { λ e. record {
      rec = e.rec;
      client = e.client;
      kind = e.kind;
      key = e.key.now;
      value = e.value.now;
      start = e.start;
      finish = e.finish;
      slack = e.slack;
    } };
}

impl<'r> Entry<'r> {
    /// Whether this is a read that never finished.
    pub(crate) fn is_skipped(&self) -> bool
        ensures { result ≡ is_skipped self.now }
    {
        match self.kind {
            Kind::Read => self.finish.is_none(),
            Kind::Write => false,
        }
    }
}

// The text, if it has from `least` to `most` bytes.
fn text_within(text: &[u8], least: usize, most: usize) -> Option<&[u8]>
    ensures { option_map (λ t. t.now) result ≡ text_of least most text.now }
{
    if least <= text.len() && text.len() <= most {
        Some(text)
    } else {
        None
    }
}

// The number of a text of 1 to `most` digits.
fn number(text: &[u8], most: usize) -> Option<u64>
    requires { most ≤ 19 }
    ensures { result ≡ number_of most text.now }
{
    if text.is_empty() || text.len() > most {
        return None;
    }
    let mut number: u64 = 0;
    for byte in text {
        if !byte.is_ascii_digit() {
            return None;
        }
        number = 10 * number + u64::from(*byte - b'0');
    }
    Some(number)
}

// The number of a text of 1 to 19 digits, if it is from `least` to `most`.
fn number_within(text: &[u8], least: u64, most: u64) -> Option<u64>
    ensures { result ≡ number_within least most (number_of 19 text.now) }
{
    let number = number(text, 19)?;
    if least <= number && number <= most {
        Some(number)
    } else {
        None
    }
}

// What one of the four words of `op` says.
fn kind_of(text: &[u8]) -> Option<Kind>
    ensures { result ≡ kind_of text.now }
{
    if text == b"r".as_slice() || text == b"read".as_slice() {
        Some(Kind::Read)
    } else if text == b"w".as_slice() || text == b"write".as_slice() {
        Some(Kind::Write)
    } else {
        None
    }
}

// A client: 1 to 10 digits, a number of 32 bits.
fn client_of(text: &[u8]) -> Option<u32>
    ensures { result ≡ client_of text.now }
{
    let number = number(text, 10)?;
    if number <= 4_294_967_295 {
        Some(number as u32)
    } else {
        None
    }
}

// A value: at most 256 bytes, of which a write has at least 1.
fn value_of(kind: Kind, text: &[u8]) -> Option<&[u8]>
    ensures { option_map (λ t. t.now) result ≡ value_of kind text.now }
{
    match kind {
        Kind::Read => text_within(text, 0, 256),
        Kind::Write => text_within(text, 1, 256),
    }
}

// A tick.
fn tick_of(text: &[u8]) -> Option<u64>
    ensures { result ≡ tick_of text.now }
{
    number_within(text, 1, GREATEST_TICK)
}

// A finish: a tick, or empty where the operation never finished.
fn finish_of(text: &[u8]) -> Option<Option<u64>>
    ensures { result ≡ finish_of text.now }
{
    if text.is_empty() {
        return Some(None);
    }
    let tick = tick_of(text)?;
    Some(Some(tick))
}

// The finish, if it is not before the start.
fn finish_after(start: u64, finish: Option<u64>) -> Option<Option<u64>>
    ensures { result ≡ finish_after start finish }
{
    match finish {
        None => Some(None),
        Some(tick) if start <= tick => Some(Some(tick)),
        Some(_) => None,
    }
}

// A slack, which is none where it is empty.
fn slack_of(text: &[u8]) -> Option<u64>
    ensures { result ≡ slack_of text.now }
{
    if text.is_empty() {
        return Some(0);
    }
    number_within(text, 0, GREATEST_TICK)
}

// The slack of a record, which is none where there is no such column.
fn slack_at(place: Option<usize>, row: &ByteRecord) -> Option<u64>
    requires { IfSome place (λ place. place < length (fields_of row.now)) }
    ensures { result ≡ slack_at place (fields_of row.now) }
{
    match place {
        None => Some(0),
        Some(place) => slack_of(field(row, place)),
    }
}

/// What record number `rec` says, or the first check that it fails.
#[tactic(auto, unfolding(crate::specs::Entries::entry_of))]
pub(crate) fn entry_of<'r>(
    columns: &Columns,
    rec: u32,
    row: &'r ByteRecord,
) -> Result<Entry<'r>, HistoryFault>
    requires { StandsWithin columns.now }
    ensures { result ≡ entry_of columns.now rec (fields_of row.now) }
{
    if row.len() != columns.fields {
        return Err(HistoryFault::Fields { rec });
    }
    let kind = kind_of(field(row, columns.op)).ok_or(HistoryFault::Op { rec })?;
    let client = client_of(field(row, columns.client)).ok_or(HistoryFault::Client { rec })?;
    let key = text_within(field(row, columns.key), 1, 256).ok_or(HistoryFault::Key { rec })?;
    let value = value_of(kind, field(row, columns.value)).ok_or(HistoryFault::Value { rec })?;
    let start = tick_of(field(row, columns.start)).ok_or(HistoryFault::Time { rec })?;
    let tick = finish_of(field(row, columns.finish)).ok_or(HistoryFault::Time { rec })?;
    let finish = finish_after(start, tick).ok_or(HistoryFault::Backwards { rec })?;
    let slack = slack_at(columns.slack, row).ok_or(HistoryFault::Slack { rec })?;
    Ok(Entry {
        rec,
        client,
        kind,
        key,
        value,
        start,
        finish,
        slack,
    })
}
