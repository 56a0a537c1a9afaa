//! The records of a history file, one at a time.
ghost use Rattle.std.specs.Prelude.{◌≡◌, true, IfOk, OnErr};
ghost use Rattle.csv.specs.Reading.{has_failed};
ghost use Rattle.csv.specs.Records.{fields_of};
ghost use Rattle.history_csv.specs.Reading.{records_of};
ghost use Rattle.history_csv.specs.Records.{IsReading, Takes, records_left};

use csv::{ByteRecord, ErrorKind, Reader, ReaderBuilder};
use stale_model::Memory;
use std::alloc::Global;

/// A reader of the records of a file. It drops one byte order mark itself.
pub(crate) fn reader_of(alloc: Global, bytes: &[u8]) -> Reader<&[u8]>
    ensures reading { IsReading result }
    ensures records { records_left result ≡ records_of bytes.now }
{
    ReaderBuilder::new()
        .has_headers(false)
        .flexible(true)
        .from_reader(alloc, bytes)
}

/// Reads the next record, and says whether there was one. An error stops the reader.
///
/// A slice can't fail to be read, so `Io` never comes. The reader's contract leaves this open.
pub(crate) fn read_next(reader: &mut Reader<&[u8]>, row: &mut ByteRecord) -> Result<bool, Memory>
    requires { IsReading reader.old }
    ensures takes { IfOk result (λ found. Takes reader.old found (fields_of row.new) reader.new) }
    ensures stops { OnErr result (has_failed reader.new ≡ true) }
{
    match reader.read_byte_record(row) {
        Ok(found) => Ok(found),
        Err(error) => match error.kind() {
            ErrorKind::OutOfMemory | ErrorKind::Io(_) => Err(Memory),
            _ => unreachable!(),
        },
    }
}
