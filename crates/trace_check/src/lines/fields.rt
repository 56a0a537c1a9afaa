//! What the fields of a line say.
ghost use Rattle.std.specs.Prelude.{◌≡◌, ◌+◌, ◌<◌, IfSome};
ghost use Rattle.trace_check.specs.Lines.{tick_limit, number_between, number_after, tick_of, key_of, named_value, value_of, kind_of, ask_of};

use cert_text::number_of;
use stale_model::{Ask, Kind};

/// Ticks and stamps are below this.
const TICK_LIMIT: u64 = 1 << 62;

/// Numbers of values are below this.
const VALUE_LIMIT: u64 = 1 << 32;

// The number, from `least` on and below `limit`, that a field is.
fn number_between(least: u64, limit: u64, field: &[u8]) -> Option<u64>
    ensures number { result ≡ number_between least limit field.now }
    ensures below { IfSome result (λ n. n < limit) }
{
    let number = number_of(field, u64::MAX)?;
    if least <= number && number < limit {
        Some(number)
    } else {
        None
    }
}

/// The number, from `least` on and below `limit`, that a field is: of a client or of a replica.
pub(crate) fn small_number(least: u32, limit: u32, field: &[u8]) -> Option<u32>
    ensures { result ≡ number_between least limit field.now }
{
    let number = number_between(u64::from(least), u64::from(limit), field)?;
    Some(number as u32)
}

/// The number of a call, from 1 to `calls`, that a field is.
pub(crate) fn seq_of(calls: u32, field: &[u8]) -> Option<u32>
    ensures { result ≡ number_between 1 (calls + 1) field.now }
{
    let number = number_between(1, u64::from(calls) + 1, field)?;
    Some(number as u32)
}

// The number after this letter.
fn number_after(letter: u8, least: u64, limit: u64, field: &[u8]) -> Option<u64>
    ensures number { result ≡ number_after letter least limit field.now }
    ensures below { IfSome result (λ n. n < limit) }
{
    match field {
        [first, digits @ ..] if *first == letter => number_between(least, limit, digits),
        _ => None,
    }
}

/// The tick that a field is.
pub(crate) fn tick_of(field: &[u8]) -> Option<u64>
    ensures { result ≡ tick_of field.now }
{
    number_between(1, TICK_LIMIT, field)
}

/// The stamp that a field is.
pub(crate) fn stamp_of(field: &[u8]) -> Option<u64>
    ensures { result ≡ number_between 0 tick_limit field.now }
{
    number_between(0, TICK_LIMIT, field)
}

/// The number of the key that a field names.
pub(crate) fn key_of(keys: u32, field: &[u8]) -> Option<u32>
    ensures { result ≡ key_of keys field.now }
{
    let key = number_after(b'k', 0, u64::from(keys), field)?;
    Some(key as u32)
}

// The number of the value that a field names.
fn named_value(field: &[u8]) -> Option<u32>
    ensures { result ≡ named_value field.now }
{
    let value = number_after(b'v', 1, VALUE_LIMIT, field)?;
    Some(value as u32)
}

/// The value on a line of this op: only where the op is `r` it may be empty, which is 0.
pub(crate) fn value_of(op: &[u8], field: &[u8]) -> Option<u32>
    ensures { result ≡ value_of op.now field.now }
{
    if op == b"r".as_slice() && field.is_empty() {
        Some(0)
    } else {
        named_value(field)
    }
}

/// The kind of a call of this op.
pub(crate) fn kind_of(op: &[u8]) -> Option<Kind>
    ensures { result ≡ kind_of op.now }
{
    if op == b"r".as_slice() {
        Some(Kind::Read)
    } else if op == b"w".as_slice() {
        Some(Kind::Write)
    } else {
        None
    }
}

/// What a request of this op asks, with the value and the stamp of its line.
pub(crate) fn ask_of(op: &[u8], value: u32, stamp: u64) -> Option<Ask>
    ensures { result ≡ ask_of op.now value stamp }
{
    if op == b"r".as_slice() {
        Some(Ask::Read)
    } else if op == b"w".as_slice() {
        Some(Ask::Write { value })
    } else if op == b"p".as_slice() {
        Some(Ask::Repair { stamp, value })
    } else {
        None
    }
}
