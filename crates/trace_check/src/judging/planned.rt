//! Part 1: the calls of each client, against the plan.
ghost use Rattle.std.specs.Prelude.{◌≡◌, ◌↔◌, ◌+◌, ◌<◌, ℕ, All, IsTrue, length, map, slice_index_or, []};
ghost use Rattle.std.specs.List.{range_with_len};
ghost use Rattle.stale_model.specs.Settings.{calls_of};
ghost use Rattle.stale_model.specs.RecordedRuns.{entries_of, IsAsPlanned, ArePlanned};
ghost use Rattle.trace_check.specs.CallSteps.{AreCalls};

use stale_model::{Entry, Kind, List, Plan, PlanCall, Settings};

// Whether this is the entry of the planned call with this number.
fn is_as_planned(seq: usize, call: &PlanCall, entry: &Entry) -> bool
    ensures { IsTrue result ↔ IsAsPlanned seq call.now entry.now }
{
    entry.seq as usize == seq
        && entry.kind == call.kind
        && entry.key == call.key
        && (call.kind == Kind::Read || entry.value == call.value)
}

// Whether a client has made these planned calls, in order, and no others.
fn are_calls(calls: &[PlanCall], own: &[Entry]) -> bool
    ensures { IsTrue result ↔ AreCalls calls.now own.now }
{
    if own.len() != calls.len() {
        return false;
    }
    for (place, entry) in own.iter().enumerate() {
        if !is_as_planned(place + 1, &calls[place], entry) {
            return false;
        }
    }
    true
}

// Whether each client has made its planned calls.
fn are_calls_of_each(plan: &Plan, groups: &[List<Entry>]) -> bool
    requires { length plan.now.clients ≡ length groups.now }
    ensures { IsTrue result ↔ ((client : ℕ) → client < length groups.now
        → AreCalls (calls_of plan.now client) (slice_index_or groups.now client [])) }
{
    let plans = plan.clients.as_slice();
    for (client, own) in groups.iter().enumerate() {
        if !are_calls(plans[client].as_slice(), own.as_slice()) {
            return false;
        }
    }
    true
}

// Whether the entries are of so many clients.
fn are_of_clients(clients: u32, entries: &[Entry]) -> bool
    ensures { IsTrue result ↔ All (λ e. e.client < clients) entries.now }
{
    entries.iter().all(|entry| entry.client < clients)
}

/// Whether each client has made its planned calls, in order, and no others. `groups` are the entries of each client.
pub(crate) fn are_planned(
    settings: &Settings,
    plan: &Plan,
    entries: &[Entry],
    groups: &[List<Entry>],
) -> bool
    requires groups { groups.now ≡ map (λ c. entries_of c entries.now) (range_with_len 0 settings.now.clients) }
    requires plan { length plan.now.clients ≡ settings.now.clients }
    ensures { IsTrue result ↔ ArePlanned settings.now plan.now entries.now }
{
    are_of_clients(settings.clients, entries) && are_calls_of_each(plan, groups)
}
