//! Reads and writes histories: CSV files with one operation a record.
#![tactic(auto)]

ghost use Rattle.std.specs.Prelude.{◌≡◌, ◌≢◌, ℕ, ◌+◌, ◌⊎◌, [], length, sum_by, IfOk, IfErr, OnOk};
ghost use Rattle.stale_model.specs.Valid.{IsValidHistory};
ghost use Rattle.history_csv.specs.Header.{IsColumn};
ghost use Rattle.history_csv.specs.Building.{StandsWithin};
ghost use Rattle.history_csv.specs.Made.{Makes, TookAll};
ghost use Rattle.history_csv.specs.Reading.{read_of, records_of, history_of_records, history_after};
ghost use Rattle.history_csv.specs.Records.{IsReading, WantsMemory, records_left};

mod blocks;
mod builder;
mod entry;
mod header;
mod laws;
mod numbering;
mod part_keys;
mod parts;
mod recorded;
mod records;
mod writing;

use crate::builder::{Builder, has_many_keys};
use crate::entry::entry_of;
pub use crate::header::column_name;
use crate::header::{Columns, columns_of};
pub use crate::laws::{records_are_few, what_is_recorded_reads_back, what_is_written_reads_back};
pub use crate::recorded::{write_journal, write_recorded};
use crate::records::{read_next, reader_of};
pub use crate::writing::write_history;
use csv::{ByteRecord, Reader};
use stale_model::{History, Memory};
use std::alloc::Global;

// The greatest number of records after the header.
const MOST_RECORDS: u32 = 1_000_000;

/// Why a history was not read. A record's number counts from 1, after the header.
#[derive(Debug, Clone, Copy, PartialEq, Eq)]
pub enum HistoryFault {
    /// There is no record at all, so no header.
    NoHeader,
    /// The header does not name this column exactly once, or `slack` more than once. The columns
    /// are numbered 1 to 7, and `column_name` gives the name of each.
    Column { name: u8 },
    /// The record has another number of fields than the header.
    Fields { rec: u32 },
    /// `op` is none of `r`, `read`, `w` and `write`.
    Op { rec: u32 },
    /// `client` is not 1 to 10 digits, or above 4294967295.
    Client { rec: u32 },
    /// `key` is empty or longer than 256 bytes.
    Key { rec: u32 },
    /// `value` is longer than 256 bytes, or empty for a write.
    Value { rec: u32 },
    /// `start` is no tick, or `finish` is neither empty nor a tick.
    Time { rec: u32 },
    /// `finish` is less than `start`.
    Backwards { rec: u32 },
    /// There are more than 1,000,000 records after the header.
    Records,
    /// Memory ran out.
    Memory,
    /// `slack` is neither empty nor a number of 1 to 19 digits, at most 4611686018427387903.
    Slack { rec: u32 },
}

impl From<Memory> for HistoryFault {
    ghost use Rattle.std.specs.Prelude.{◌≡◌};
    ghost use Rattle.history_csv.specs.declared.HistoryFault.{HistoryFault};

    ghost from_gives = { λ memory fault. fault ≡ HistoryFault.Memory };

    fn from(_memory: Memory) -> HistoryFault {
        HistoryFault::Memory
    }
}

// Takes the records after the header into a history.
fn take_records(
    history: &mut Builder,
    alloc: Global,
    columns: &Columns,
    reader: &mut Reader<&[u8]>,
    row: &mut ByteRecord,
) -> Result<(), HistoryFault>
    requires reading { IsReading reader.old }
    requires within { StandsWithin columns.now }
    requires empty { Makes history.old [] }
    ensures takes { OnOk result (TookAll columns.now (records_left reader.old) history.new) }
    ensures fault { IfErr result (λ fault. (fault ≡ HistoryFault.Memory)
        ⊎ (history_after columns.now (records_left reader.old) ≡ Err fault)) }
    ensures memory { result ≡ Err HistoryFault.Memory
        → WantsMemory (history_after columns.now) reader.old reader.new }
{
    for rec in 1..MOST_RECORDS + 1 {
        if !read_next(reader, row)? {
            return Ok(());
        }
        let entry = entry_of(columns, rec, row)?;
        history.add(alloc, &entry)?;
    }
    if read_next(reader, row)? {
        Err(HistoryFault::Records)
    } else {
        Ok(())
    }
}

// Reads all records, the first of which is the header, of a file of so many bytes.
fn read_records(
    alloc: Global,
    has_many_keys: bool,
    file_bytes: usize,
    reader: &mut Reader<&[u8]>,
    row: &mut ByteRecord,
) -> Result<History, HistoryFault>
    requires { IsReading reader.old }
    ensures read { (result ≡ Err HistoryFault.Memory)
        ⊎ (result ≡ history_of_records (records_left reader.old)) }
    ensures memory { result ≡ Err HistoryFault.Memory
        → WantsMemory history_of_records reader.old reader.new }
{
    if !read_next(reader, row)? {
        return Err(HistoryFault::NoHeader);
    }
    let columns = columns_of(row)?;
    let mut history = Builder::new(alloc, has_many_keys, file_bytes)?;
    take_records(&mut history, alloc, &columns, reader, row)?;
    Ok(history.finish(alloc)?)
}

/// Reads a history.
///
/// The bytes are records of fields between commas, where quotes may stand round a field, after at
/// most one byte order mark. The first record is the header. It names the columns `client`, `op`,
/// `key`, `value`, `start` and `finish` in any order, once each, and may name `slack`. Columns of
/// other names are not looked at. Keys, and the values of each key, are numbered by first
/// appearance. A read with no finish is checked like any other record and then left out, and counts
/// in `skipped`.
///
/// # Errors
/// The first of: a fault of the header, and the fault of the first record at fault, in the order of
/// `HistoryFault` with `Slack` last of a record's own. A record after the millionth gives `Records`
/// before its own checks. `Memory` may come at any time.
#[tactic(auto, using(crate::proofs::Definite::read_definite))]
pub fn read_history(alloc: Global, bytes: &[u8]) -> Result<History, HistoryFault>
    ensures read { (result ≡ Err HistoryFault.Memory) ⊎ (result ≡ read_of bytes.now) }
    ensures definite { read_of bytes.now ≢ Err HistoryFault.Memory }
    ensures column { (name : ℕ) → result ≡ Err (HistoryFault.Column name) → IsColumn name }
    ensures valid { IfOk result IsValidHistory }
    ensures records { IfOk result (λ history. history.records + 1 ≡ length (records_of bytes.now)) }
    ensures skipped { IfOk result (λ history.
        history.skipped + sum_by (λ key. length key.ops) history.keys ≡ history.records) }
{
    let mut reader = reader_of(alloc, bytes);
    let mut row = ByteRecord::new(alloc);
    let has_many_keys = has_many_keys(alloc, bytes);
    read_records(alloc, has_many_keys, bytes.len(), &mut reader, &mut row)
}

#[cfg(test)]
mod tests;
