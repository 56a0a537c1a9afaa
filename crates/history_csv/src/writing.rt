//! Writes histories.
ghost use Rattle.std.specs.Prelude.{◌≡◌, ◌++◌, ◌∷◌, [], map, IfOk, OnOk};
ghost use Rattle.std.specs.Fmt.{decimal};
ghost use Rattle.std.specs.List.{flat_map};
ghost use Rattle.csv.specs.Writing.{default_writer, row_text};
ghost use Rattle.stale_model.specs.Texts.{line_fields, op_text, value_text};
ghost use Rattle.history_csv.specs.Written.{line_text, history_text};
ghost use Rattle.history_csv.specs.Writer.{IsBetweenRecords, bytes_written};

use csv::{Writer, WriterBuilder};
use itoa::{Buffer, write_digits};
use stale_model::{Bytes, Kind, Line, Memory};
use std::alloc::Global;

// The columns of a history.
const COLUMNS: [&[u8]; 6] = [b"client", b"op", b"key", b"value", b"start", b"finish"];

// The word of a kind.
fn op_text(kind: Kind) -> &'static str
    ensures { result.now ≡ op_text kind }
{
    match kind {
        Kind::Read => "r",
        Kind::Write => "w",
    }
}

// How many bytes a line is thought to take.
const PLAUSIBLE_LENGTH: usize = 40;

/// The length of the longest name: a letter and the digits of the greatest number of 32 bits.
pub(crate) const LONGEST_NAME: usize = 11;

/// The name of a letter and a number. `text` is memory for it.
pub(crate) fn name_text(letter: u8, number: u32, text: &mut [u8; LONGEST_NAME]) -> &[u8]
    ensures { result.now ≡ letter ∷ decimal number }
{
    let start = write_digits(u64::from(number), text, LONGEST_NAME) - 1;
    text[start] = letter;
    &text[start..]
}

/// The text of a value. `text` is memory for it.
pub(crate) fn value_text(value: u32, text: &mut [u8; LONGEST_NAME]) -> &[u8]
    ensures { result.now ≡ value_text value }
{
    if value == 0 {
        b""
    } else {
        name_text(b'v', value, text)
    }
}

/// Writes a record. All records of one text have as many fields, and a list takes any bytes, so an error is
/// want of memory.
pub(crate) fn write_record(writer: &mut Writer<Vec<u8>>, fields: &[&[u8]]) -> Result<(), Memory>
    requires { IsBetweenRecords writer.old }
    ensures between { OnOk result (IsBetweenRecords writer.new) }
    ensures bytes { OnOk result (bytes_written writer.new
        ≡ bytes_written writer.old ++ row_text default_writer (map (λ f. f.now) fields.now)) }
{
    match writer.write_fields(fields) {
        Ok(()) => Ok(()),
        Err(_) => Err(Memory),
    }
}

/// Memory for the texts of a line's numbers.
#[derive(Drop)]
pub(crate) struct LineRoom {
    client: Buffer,
    key: [u8; LONGEST_NAME],
    value: [u8; LONGEST_NAME],
    start: Buffer,
    finish: Buffer,
}

impl LineRoom {
    /// Memory that nothing was written to.
    pub(crate) fn new() -> LineRoom {
        LineRoom {
            client: Buffer::new(),
            key: [0; LONGEST_NAME],
            value: [0; LONGEST_NAME],
            start: Buffer::new(),
            finish: Buffer::new(),
        }
    }
}

/// The fields of a line.
#[derive(Clone, Copy)]
pub(crate) struct LineFields<'t> {
    pub(crate) client: &'t [u8],
    pub(crate) op: &'t [u8],
    pub(crate) key: &'t [u8],
    pub(crate) value: &'t [u8],
    pub(crate) start: &'t [u8],
    pub(crate) finish: &'t [u8],
}

/// The fields of a line. `room` is memory for them.
pub(crate) fn line_fields<'t>(line: &Line, room: &'t mut LineRoom) -> LineFields<'t>
    ensures { result.client.now ∷ result.op.now ∷ result.key.now ∷ result.value.now
        ∷ result.start.now ∷ result.finish.now ∷ [] ≡ line_fields line.now }
{
    LineFields {
        client: room.client.format(line.client).as_bytes(),
        op: op_text(line.kind).as_bytes(),
        key: name_text(b'k', line.key, &mut room.key),
        value: value_text(line.value, &mut room.value),
        start: room.start.format(line.start).as_bytes(),
        finish: room.finish.format(line.finish).as_bytes(),
    }
}

// Writes a line.
fn write_line(writer: &mut Writer<Vec<u8>>, line: &Line) -> Result<(), Memory>
    requires { IsBetweenRecords writer.old }
    ensures between { OnOk result (IsBetweenRecords writer.new) }
    ensures bytes { OnOk result (bytes_written writer.new
        ≡ bytes_written writer.old ++ line_text line.now) }
{
    let mut room = LineRoom::new();
    let line = line_fields(line, &mut room);
    let fields = [
        line.client,
        line.op,
        line.key,
        line.value,
        line.start,
        line.finish,
    ];
    write_record(writer, &fields)
}

// Writes lines.
fn write_lines(writer: &mut Writer<Vec<u8>>, lines: &[Line]) -> Result<(), Memory>
    requires { IsBetweenRecords writer.old }
    ensures { OnOk result (bytes_written writer.new
        ≡ bytes_written writer.old ++ flat_map line_text lines.now) }
{
    for line in lines {
        write_line(writer, line)?;
    }
    Ok(())
}

/// A writer to an empty text, with room for so many lines of this length.
pub(crate) fn writer_for(
    alloc: Global,
    lines: usize,
    length: usize,
) -> Result<Writer<Vec<u8>>, Memory>
    ensures between { IfOk result IsBetweenRecords }
    ensures empty { IfOk result (λ writer. bytes_written writer ≡ []) }
{
    match Vec::with_capacity(alloc, lines.saturating_mul(length)) {
        Ok(text) => Ok(WriterBuilder::new().from_writer(text)),
        Err(_) => Err(Memory),
    }
}

/// What a writer has written.
pub(crate) fn text_of(writer: Writer<Vec<u8>>) -> Result<Bytes, Memory>
    ensures { IfOk result (λ text. text ≡ bytes_written writer) }
{
    match writer.into_inner() {
        Ok(text) => Ok(Bytes::from_vec(text)),
        Err(_) => Err(Memory),
    }
}

/// The text of a history of these lines: the header `client,op,key,value,start,finish`, and a record for
/// each line, ended by a line feed. `op` is `r` or `w`, the key is `k` and its number, and the value is `v`
/// and its number, or empty for 0.
///
/// # Errors
/// `Memory` is the only one.
pub fn write_history(alloc: Global, lines: &[Line]) -> Result<Bytes, Memory>
    ensures { IfOk result (λ text. text ≡ history_text lines.now) }
{
    let mut writer = writer_for(alloc, lines.len(), PLAUSIBLE_LENGTH)?;
    write_record(&mut writer, &COLUMNS)?;
    write_lines(&mut writer, lines)?;
    text_of(writer)
}
