//! The header of a history file: the columns that it names, and where they stand.
ghost use Rattle.std.specs.Prelude.{◌≡◌, ◌<◌, length, IfOk, IfSome};
ghost use Rattle.csv.specs.Records.{fields_of};
ghost use Rattle.history_csv.specs.Entries.{field};
ghost use Rattle.history_csv.specs.Header.{IsColumn, column_name, times_named, place_named, only_place, optional_place, columns_of};
ghost use Rattle.history_csv.specs.Building.{StandsWithin};

use crate::HistoryFault;
use csv::ByteRecord;

/// Where the columns of a file stand, counted from 0.
#[derive(Debug, Clone, Copy, PartialEq, Eq)]
pub struct Columns {
    /// How many fields each record has.
    pub fields: usize,
    pub client: usize,
    pub op: usize,
    pub key: usize,
    pub value: usize,
    pub start: usize,
    pub finish: usize,
    /// Not every file has this column.
    pub slack: Option<usize>,
}

/// The name of a column, by its number: 1 to 7 for client, op, key, value, start, finish and slack.
pub fn column_name(number: u8) -> &'static str
    requires { IsColumn number }
    ensures { result.now ≡ column_name number }
{
    match number {
        1 => "client",
        2 => "op",
        3 => "key",
        4 => "value",
        5 => "start",
        6 => "finish",
        7 => "slack",
        _ => unreachable!(),
    }
}

/// The field at a place.
pub(crate) fn field(row: &ByteRecord, place: usize) -> &[u8]
    requires { place < length (fields_of row.now) }
    ensures { result.now ≡ field (fields_of row.now) place }
{
    match row.get(place) {
        Some(text) => text,
        None => unreachable!(),
    }
}

// How many fields of a header are this name.
fn times_named(header: &ByteRecord, name: &str) -> usize
    ensures { result ≡ times_named name.now (fields_of header.now) }
{
    let mut times = 0;
    for place in 0..header.len() {
        if name.as_bytes() == field(header, place) {
            times += 1;
        }
    }
    times
}

// The place of the first field that is this name.
fn place_named(header: &ByteRecord, name: &str) -> Option<usize>
    ensures first { result ≡ place_named name.now (fields_of header.now) }
    ensures within { IfSome result (λ place. place < length (fields_of header.now)) }
{
    for place in 0..header.len() {
        if name.as_bytes() == field(header, place) {
            return Some(place);
        }
    }
    None
}

// The place of a column that has to stand exactly once.
fn only_place(header: &ByteRecord, number: u8) -> Option<usize>
    requires { IsColumn number }
    ensures only { result ≡ only_place (column_name number) (fields_of header.now) }
    ensures within { IfSome result (λ place. place < length (fields_of header.now)) }
{
    let name = column_name(number);
    if times_named(header, name) == 1 {
        place_named(header, name)
    } else {
        None
    }
}

// The place of a column that need not stand, and must not stand twice.
fn optional_place(header: &ByteRecord, number: u8) -> Option<Option<usize>>
    requires { IsColumn number }
    ensures optional { result ≡ optional_place (column_name number) (fields_of header.now) }
    ensures within { IfSome result
        (λ found. IfSome found (λ place. place < length (fields_of header.now))) }
{
    let name = column_name(number);
    if times_named(header, name) <= 1 {
        Some(place_named(header, name))
    } else {
        None
    }
}

/// The columns that a header names, or the first that does not stand as it must.
#[tactic(auto, unfolding(crate::specs::Header::columns_of))]
pub(crate) fn columns_of(header: &ByteRecord) -> Result<Columns, HistoryFault>
    ensures columns { result ≡ columns_of (fields_of header.now) }
    ensures within { IfOk result StandsWithin }
{
    let fields = header.len();
    let client = only_place(header, 1).ok_or(HistoryFault::Column { name: 1 })?;
    let op = only_place(header, 2).ok_or(HistoryFault::Column { name: 2 })?;
    let key = only_place(header, 3).ok_or(HistoryFault::Column { name: 3 })?;
    let value = only_place(header, 4).ok_or(HistoryFault::Column { name: 4 })?;
    let start = only_place(header, 5).ok_or(HistoryFault::Column { name: 5 })?;
    let finish = only_place(header, 6).ok_or(HistoryFault::Column { name: 6 })?;
    let slack = optional_place(header, 7).ok_or(HistoryFault::Column { name: 7 })?;
    Ok(Columns {
        fields,
        client,
        op,
        key,
        value,
        start,
        finish,
        slack,
    })
}
