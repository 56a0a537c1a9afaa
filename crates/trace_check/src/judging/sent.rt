//! Whether each journal has of each client what its calls send there, and nothing else.
ghost use Rattle.std.specs.Prelude.{◌≡◌, ◌↔◌, ℕ, ◌<◌, if◌then◌else◌, [], ◌∷◌, All, IsTrue, IfOk, IfNone, IfSome, length, replicate, ◌^◌};
ghost use Rattle.stale_model.specs.Calls.{request_of, repair_of, repairs};
ghost use Rattle.stale_model.specs.RecordedRuns.{journal_of, AreSent};
ghost use Rattle.trace_check.specs.SendingSteps.{due_requests, all_due, due_of, IsNextOf, AreFirstOf, HasAllSent};

use crate::judging::by_client::entries_by_client;
use crate::judging::taken::{freshest_taken, taken_by};
use quorum_client::is_stale;
use stale_model::{Ask, Entry, JournalEntry, Kind, List, Memory, Request, Settings};
use std::alloc::Global;

/// What a client has yet to send to a replica: a repair, where one is due, and its calls from a place on.
#[derive(Clone, Copy)]
struct Due {
    repair: Option<Request>,
    place: usize,
}

// The request that a call sends to every replica.
fn request_of(call: &Entry) -> Request
    ensures { result ≡ request_of call.now }
{
    let ask = match call.kind {
        Kind::Read => Ask::Read,
        Kind::Write => Ask::Write { value: call.value },
    };
    Request {
        client: call.client,
        seq: call.seq,
        start: call.start,
        key: call.key,
        ask,
    }
}

// The repair that a call sends to a replica, if it took an older reply of it.
fn repair_for(replica: u32, call: &Entry) -> Option<Request>
    ensures { result ≡ (if repairs call.now replica then Some (repair_of call.now) else None) }
{
    let best = freshest_taken(call);
    if call.kind == Kind::Read && is_stale(taken_by(call), replica, best.stamp) {
        Some(Request {
            client: call.client,
            seq: call.seq,
            start: call.finish,
            key: call.key,
            ask: Ask::Repair {
                stamp: best.stamp,
                value: best.value,
            },
        })
    } else {
        None
    }
}

// The next request that a client sends to a replica, and what it has yet to send after it.
fn next_due(replica: u32, calls: &[Entry], due: Due) -> Option<(Request, Due)>
    ensures none { IfNone result (due_requests replica calls.now due ≡ []) }
    ensures some { IfSome result (λ p. due_requests replica calls.now due
        ≡ p.0 ∷ due_requests replica calls.now p.1) }
{
    if let Some(request) = due.repair {
        return Some((
            request,
            Due {
                repair: None,
                place: due.place,
            },
        ));
    }
    let call = calls.get(due.place)?;
    let after = Due {
        repair: repair_for(replica, call),
        place: due.place + 1,
    };
    Some((request_of(call), after))
}

// Whether two requests are one.
fn is_same(a: &Request, b: &Request) -> bool
    ensures { IsTrue result ↔ (a.now ≡ b.now) }
{
    a == b
}

// Whether a request is the next that its client sends to the replica. Where it is, it is due no longer.
fn take_next(replica: u32, calls: &[List<Entry>], due: &mut [Due], request: &Request) -> bool
    requires client { request.now.client < length calls.now }
    requires each { length due.old ≡ length calls.now }
    ensures { IsNextOf replica calls.now due.old due.new request.now result }
{
    let client = request.client as usize;
    match next_due(replica, calls[client].as_slice(), due[client]) {
        Some((next, after)) if is_same(&next, request) => {
            due[client] = after;
            true
        }
        _ => false,
    }
}

// Whether the journal of a replica has of each client the next requests that it sends there. Where it has, what is due
// is what the clients send after them.
fn take_all(replica: u32, calls: &[List<Entry>], due: &mut [Due], journal: &[JournalEntry]) -> bool
    requires clients { All (λ j. j.request.client < length calls.now) journal.now }
    requires each { length due.old ≡ length calls.now }
    ensures { AreFirstOf replica calls.now due.old due.new journal.now result }
{
    for line in journal {
        if !take_next(replica, calls, due, &line.request) {
            return false;
        }
    }
    true
}

// Whether no client has anything left to send to the replica.
fn is_nothing_due(replica: u32, calls: &[List<Entry>], due: &[Due]) -> bool
    requires { length due.now ≡ length calls.now }
    ensures { IsTrue result ↔ ((client : ℕ) → client < length calls.now
        → due_of replica calls.now due.now client ≡ []) }
{
    for (client, rest) in due.iter().enumerate() {
        if next_due(replica, calls[client].as_slice(), *rest).is_some() {
            return false;
        }
    }
    true
}

// All calls of each client.
fn all_calls(alloc: Global, clients: usize) -> Result<Vec<Due>, Memory>
    ensures { IfOk result (λ due. due.items ≡ replicate clients all_due) }
{
    let calls = Due {
        repair: None,
        place: 0,
    };
    vec![in alloc; calls; clients].map_err(|_| Memory)
}

// Whether the journal of a replica has of each client what its calls send there, where all of them are due.
fn has_all_due(
    replica: u32,
    calls: &[List<Entry>],
    due: &mut [Due],
    journal: &[JournalEntry],
) -> bool
    requires clients { All (λ j. j.request.client < length calls.now) journal.now }
    requires due { due.old ≡ replicate (length calls.now) all_due }
    ensures { IsTrue result ↔ HasAllSent replica calls.now journal.now }
{
    if !take_all(replica, calls, due, journal) {
        return false;
    }
    is_nothing_due(replica, calls, due)
}

// Whether the journal of a replica has of each client what its calls send there.
fn is_sent(
    alloc: Global,
    replica: u32,
    calls: &[List<Entry>],
    journal: &[JournalEntry],
) -> Result<bool, Memory>
    requires { All (λ j. j.request.client < length calls.now) journal.now }
    ensures { IfOk result (λ holds. IsTrue holds ↔ HasAllSent replica calls.now journal.now) }
{
    let mut due = all_calls(alloc, calls.len())?;
    Ok(has_all_due(replica, calls, &mut due, journal))
}

// Whether the journal of each replica has of each client what its calls send there.
fn are_all_sent(
    alloc: Global,
    calls: &[List<Entry>],
    journals: &[List<JournalEntry>],
) -> Result<bool, Memory>
    requires clients { (replica : ℕ)
        → All (λ j. j.request.client < length calls.now) (journal_of journals.now replica) }
    requires few { length journals.now < 2 ^ 32 }
    ensures { IfOk result (λ holds. IsTrue holds ↔ ((replica : ℕ) → replica < length journals.now
        → HasAllSent replica calls.now (journal_of journals.now replica))) }
{
    for (replica, journal) in journals.iter().enumerate() {
        if !is_sent(alloc, replica as u32, calls, journal.as_slice())? {
            return Ok(false);
        }
    }
    Ok(true)
}

// Whether a journal is of these clients alone.
fn is_of_clients(clients: u32, journal: &[JournalEntry]) -> bool
    ensures { IsTrue result ↔ All (λ j. j.request.client < clients) journal.now }
{
    journal.iter().all(|line| line.request.client < clients)
}

// Whether each journal is of these clients alone.
fn are_of_clients(clients: u32, journals: &[List<JournalEntry>]) -> bool
    ensures { IsTrue result ↔ ((replica : ℕ)
        → All (λ j. j.request.client < clients) (journal_of journals.now replica)) }
{
    for journal in journals {
        if !is_of_clients(clients, journal.as_slice()) {
            return false;
        }
    }
    true
}

/// Whether there is a journal for each replica, which has of each client what its calls send there, and of nobody else.
///
/// # Errors
/// Want of memory.
pub(crate) fn are_sent(
    alloc: Global,
    settings: &Settings,
    entries: &[Entry],
    journals: &[List<JournalEntry>],
) -> Result<bool, Memory>
    ensures { IfOk result (λ holds. IsTrue holds ↔ AreSent settings.now entries.now journals.now) }
{
    if journals.len() != settings.replicas as usize {
        return Ok(false);
    }
    if !are_of_clients(settings.clients, journals) {
        return Ok(false);
    }
    let calls = entries_by_client(alloc, settings.clients, entries)?;
    let sent = are_all_sent(alloc, calls.as_slice(), journals)?;
    Ok(sent)
}
