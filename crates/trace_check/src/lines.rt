//! The call that a line of a history says, and the entry that a line of a journal file says.
ghost use Rattle.std.specs.Prelude.{◌≡◌};
ghost use Rattle.stale_model.specs.Texts.{comma};
ghost use Rattle.trace_check.specs.Lines.{split_at, call_of, entry_of};

mod fields;
mod parts;
mod tickets;

use crate::lines::fields::{
    ask_of, key_of, kind_of, seq_of, small_number, stamp_of, tick_of, value_of,
};
use crate::lines::parts::{first_part, next_part};
use crate::lines::tickets::taken_of;
use stale_model::{Entry, JournalEntry, Reply, Request, Settings};

/// The call that a line of a history says, with the tickets of the replies that it took.
pub(crate) fn call_of(settings: &Settings, line: &[u8]) -> Option<Entry>
    ensures { result ≡ call_of settings.now (split_at comma line.now) }
{
    let (client, rest) = first_part(line, b',');
    let (op, rest) = next_part(rest, b',')?;
    let (key, rest) = next_part(rest, b',')?;
    let (value, rest) = next_part(rest, b',')?;
    let (start, rest) = next_part(rest, b',')?;
    let (finish, rest) = next_part(rest, b',')?;
    let (seq, rest) = next_part(rest, b',')?;
    let (tickets, rest) = next_part(rest, b',')?;
    let None = next_part(rest, b',') else {
        return None;
    };
    let client = small_number(0, settings.clients, client)?;
    let kind = kind_of(op)?;
    let key = key_of(settings.keys, key)?;
    let value = value_of(op, value)?;
    let start = tick_of(start)?;
    let finish = tick_of(finish)?;
    let seq = seq_of(settings.calls, seq)?;
    let (took, took_count) = taken_of(tickets)?;
    Some(Entry {
        client,
        seq,
        kind,
        key,
        value,
        start,
        finish,
        took,
        took_count,
    })
}

/// The entry that a line of a journal file says, whose replica is at least `least`.
pub(crate) fn entry_of(settings: &Settings, least: u32, line: &[u8]) -> Option<JournalEntry>
    ensures { result ≡ entry_of settings.now least (split_at comma line.now) }
{
    let (replica, rest) = first_part(line, b',');
    let (serve, rest) = next_part(rest, b',')?;
    let (client, rest) = next_part(rest, b',')?;
    let (seq, rest) = next_part(rest, b',')?;
    let (start, rest) = next_part(rest, b',')?;
    let (key, rest) = next_part(rest, b',')?;
    let (op, rest) = next_part(rest, b',')?;
    let (value, rest) = next_part(rest, b',')?;
    let (stamp, rest) = next_part(rest, b',')?;
    let None = next_part(rest, b',') else {
        return None;
    };
    let replica = small_number(least, settings.replicas, replica)?;
    let serve = tick_of(serve)?;
    let client = small_number(0, settings.clients, client)?;
    let seq = seq_of(settings.calls, seq)?;
    let start = tick_of(start)?;
    let key = key_of(settings.keys, key)?;
    let value = value_of(op, value)?;
    let stamp = stamp_of(stamp)?;
    let ask = ask_of(op, value, stamp)?;
    Some(JournalEntry {
        request: Request {
            client,
            seq,
            start,
            key,
            ask,
        },
        reply: Reply {
            replica,
            client,
            seq,
            serve,
            stamp,
            value,
        },
    })
}
