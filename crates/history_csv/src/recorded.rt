//! Writes the two files of a recorded run: the history of its calls, and the journals of its replicas.
ghost use Rattle.std.specs.Prelude.{◌≡◌, ◌≤◌, ◌++◌, All, IfOk, OnOk, length, map};
ghost use Rattle.std.specs.Fmt.{decimal};
ghost use Rattle.std.specs.List.{flat_map, join_with_byte};
ghost use Rattle.stale_model.specs.Texts.{ask_text, call_fields, journal_fields, journal_text, journals_from, line_of, record_text, recorded_text, semicolon};
ghost use Rattle.history_csv.specs.Writer.{IsBetweenRecords, bytes_written};

use crate::writing::{
    LONGEST_NAME, LineRoom, line_fields, name_text, text_of, value_text, write_record, writer_for,
};
use csv::Writer;
use itoa::{Buffer, write_digits};
use stale_model::{Ask, Bytes, Entry, JournalEntry, Line, List, MOST_REPLICAS, Memory, Took};
use std::alloc::Global;

// The columns of a recorded history.
const CALL_COLUMNS: [&[u8]; 8] = [
    b"client", b"op", b"key", b"value", b"start", b"finish", b"seq", b"took",
];

// The columns of a journal file.
const JOURNAL_COLUMNS: [&[u8]; 9] = [
    b"replica", b"serve", b"client", b"seq", b"start", b"key", b"op", b"value", b"stamp",
];

// How many bytes a line of a recorded history is thought to take.
const PLAUSIBLE_CALL_LENGTH: usize = 64;

// How many bytes a line of a journal file is thought to take.
const PLAUSIBLE_JOURNAL_LENGTH: usize = 48;

// The length of the longest list of tickets: one for each replica, of 20 digits and a semicolon.
const LONGEST_TICKETS: usize = 21 * MOST_REPLICAS;

// The line of a call.
fn line_of(entry: &Entry) -> Line
    ensures { result ≡ line_of entry.now }
{
    Line {
        client: entry.client,
        kind: entry.kind,
        key: entry.key,
        value: entry.value,
        start: entry.start,
        finish: entry.finish,
    }
}

// The word of what a request asks.
fn ask_text(ask: Ask) -> &'static str
    ensures { result.now ≡ ask_text ask }
{
    match ask {
        Ask::Read => "r",
        Ask::Write { .. } => "w",
        Ask::Repair { .. } => "p",
    }
}

// The tickets at which replies were served, with semicolons between them. `text` is memory for them.
fn tickets_text<'t>(taken: &[Took], text: &'t mut [u8; LONGEST_TICKETS]) -> &'t [u8]
    requires { length taken.now ≤ 7 }
    ensures { result.now ≡ join_with_byte semicolon (map (λ t. decimal t.serve) taken.now) }
{
    let mut start = LONGEST_TICKETS;
    for place in (0..taken.len()).rev() {
        if place + 1 < taken.len() {
            start -= 1;
            text[start] = b';';
        }
        start = write_digits(taken[place].serve, text, start);
    }
    &text[start..]
}

// Writes a call.
fn write_call(writer: &mut Writer<Vec<u8>>, entry: &Entry) -> Result<(), Memory>
    requires between { IsBetweenRecords writer.old }
    requires few { entry.now.took_count ≤ 7 }
    ensures between { OnOk result (IsBetweenRecords writer.new) }
    ensures bytes { OnOk result (bytes_written writer.new
        ≡ bytes_written writer.old ++ record_text (call_fields entry.now)) }
{
    let mut room = LineRoom::new();
    let mut seq = Buffer::new();
    let mut tickets = [0; LONGEST_TICKETS];
    let line = line_fields(&line_of(entry), &mut room);
    let taken = &entry.took[..entry.took_count as usize];
    let fields = [
        line.client,
        line.op,
        line.key,
        line.value,
        line.start,
        line.finish,
        seq.format(entry.seq).as_bytes(),
        tickets_text(taken, &mut tickets),
    ];
    write_record(writer, &fields)
}

// Writes calls.
fn write_calls(writer: &mut Writer<Vec<u8>>, entries: &[Entry]) -> Result<(), Memory>
    requires between { IsBetweenRecords writer.old }
    requires few { All (λ e. e.took_count ≤ 7) entries.now }
    ensures { OnOk result (bytes_written writer.new
        ≡ bytes_written writer.old ++ flat_map (λ e. record_text (call_fields e)) entries.now) }
{
    for entry in entries {
        write_call(writer, entry)?;
    }
    Ok(())
}

/// The recorded history of these calls: the header `client,op,key,value,start,finish,seq,took`, and a record
/// for each call, in this order, ended by a line feed. The first six fields are those of `write_history`.
/// `took` is the tickets at which the replies that the call took were served, in the order in which it took
/// them, with semicolons between them.
///
/// # Errors
/// `Memory` is the only one.
pub fn write_recorded(alloc: Global, entries: &[Entry]) -> Result<Bytes, Memory>
    requires { All (λ e. e.took_count ≤ 7) entries.now }
    ensures { IfOk result (λ text. text ≡ recorded_text entries.now) }
{
    let mut writer = writer_for(alloc, entries.len(), PLAUSIBLE_CALL_LENGTH)?;
    write_record(&mut writer, &CALL_COLUMNS)?;
    write_calls(&mut writer, entries)?;
    text_of(writer)
}

// Writes an entry of the journal of this replica.
fn write_served(
    writer: &mut Writer<Vec<u8>>,
    replica: usize,
    served: &JournalEntry,
) -> Result<(), Memory>
    requires { IsBetweenRecords writer.old }
    ensures between { OnOk result (IsBetweenRecords writer.new) }
    ensures bytes { OnOk result (bytes_written writer.new
        ≡ bytes_written writer.old ++ record_text (journal_fields replica served.now)) }
{
    let mut number = Buffer::new();
    let mut serve = Buffer::new();
    let mut client = Buffer::new();
    let mut seq = Buffer::new();
    let mut start = Buffer::new();
    let mut key = [0; LONGEST_NAME];
    let mut value = [0; LONGEST_NAME];
    let mut stamp = Buffer::new();
    let fields = [
        number.format(replica).as_bytes(),
        serve.format(served.reply.serve).as_bytes(),
        client.format(served.request.client).as_bytes(),
        seq.format(served.request.seq).as_bytes(),
        start.format(served.request.start).as_bytes(),
        name_text(b'k', served.request.key, &mut key),
        ask_text(served.request.ask).as_bytes(),
        value_text(served.reply.value, &mut value),
        stamp.format(served.reply.stamp).as_bytes(),
    ];
    write_record(writer, &fields)
}

// Writes the journal of this replica.
fn write_replica(
    writer: &mut Writer<Vec<u8>>,
    replica: usize,
    journal: &[JournalEntry],
) -> Result<(), Memory>
    requires { IsBetweenRecords writer.old }
    ensures between { OnOk result (IsBetweenRecords writer.new) }
    ensures bytes { OnOk result (bytes_written writer.new
        ≡ bytes_written writer.old
        ++ flat_map (λ j. record_text (journal_fields replica j)) journal.now) }
{
    for served in journal {
        write_served(writer, replica, served)?;
    }
    Ok(())
}

// Writes the journals of the replicas.
fn write_replicas(
    writer: &mut Writer<Vec<u8>>,
    journals: &[List<JournalEntry>],
) -> Result<(), Memory>
    requires { IsBetweenRecords writer.old }
    ensures { OnOk result (bytes_written writer.new
        ≡ bytes_written writer.old ++ journals_from 0 journals.now) }
{
    for (replica, journal) in journals.iter().enumerate() {
        write_replica(writer, replica, journal.as_slice())?;
    }
    Ok(())
}

/// The journal file of these replicas: the header `replica,serve,client,seq,start,key,op,value,stamp`, and a
/// record for each entry of a journal, ended by a line feed, replica by replica from 0 and each in the order of
/// its journal. `client`, `seq`, `start`, `key` and `op` are the request's, where `op` is `r`, `w` or, for a
/// repair, `p`. `serve`, `value` and `stamp` are the reply's.
///
/// # Errors
/// `Memory` is the only one.
pub fn write_journal(alloc: Global, journals: &[List<JournalEntry>]) -> Result<Bytes, Memory>
    ensures { IfOk result (λ text. text ≡ journal_text journals.now) }
{
    let lines = journals.iter().fold(
        0usize,
        |lines, journal| lines.saturating_add(journal.as_slice().len()),
    );
    let mut writer = writer_for(alloc, lines, PLAUSIBLE_JOURNAL_LENGTH)?;
    write_record(&mut writer, &JOURNAL_COLUMNS)?;
    write_replicas(&mut writer, journals)?;
    text_of(writer)
}
