//! The calls that the clients of a run make, as its settings give them.

ghost use Rattle.std.specs.Prelude.{◌≡◌, ◌+◌, ◌*◌, ◌<◌, ◌≤◌, IfOk, OnOk};
ghost use Rattle.stale_model.specs.Settings.{AreSettings};
ghost use Rattle.seeded_words.specs.Drawn.{HasDrawn};
ghost use Rattle.quorum_client.specs.Plans.{numbered_call, planned_call, planned_calls, plan_for, IsWhole};

use seeded_words::Words;
use stale_model::{Kind, List, Memory, Plan, PlanCall, Settings};
use std::alloc::Global;

/// The plan of a run with these settings: a list of calls for each client.
///
/// Clients come in order from 0, and the calls of each in order from 1. Each call takes the next
/// two words of the seed, a and b.
///
/// - It is a write where a mod 100 is less than `writes`, else a read.
/// - Its key is b mod `keys`.
/// - The value of a write is client × `calls` + the number of the call, and that of a read is 0.
///
/// The error is `Memory`, where memory runs out.
pub fn plan_of(alloc: Global, settings: &Settings) -> Result<Plan, Memory>
    requires { AreSettings settings.now }
    ensures plan { IfOk result (λ plan. plan ≡ plan_for settings.now) }
    ensures whole { IfOk result (IsWhole settings.now) }
{
    let mut words = Words::of_seed(settings.seed);
    let mut clients = Vec::with_capacity(alloc, settings.clients as usize).map_err(|_| Memory)?;
    for client in 0..settings.clients {
        let calls = next_calls(alloc, settings, client, &mut words)?;
        clients.push(calls).map_err(|_| Memory)?;
    }
    Ok(Plan {
        clients: List::from_vec(clients),
    })
}

// The calls of a client, by the words after those of the clients before it.
fn next_calls(
    alloc: Global,
    settings: &Settings,
    client: u32,
    words: &mut Words,
) -> Result<List<PlanCall>, Memory>
    requires settings { AreSettings settings.now }
    requires client { client < settings.now.clients }
    requires drawn { HasDrawn settings.now.seed (2 * (client * settings.now.calls)) words.old }
    ensures calls { IfOk result (λ calls. calls ≡ planned_calls settings.now client) }
    ensures words { OnOk result
        (HasDrawn settings.now.seed (2 * ((client + 1) * settings.now.calls)) words.new) }
{
    let before = client * settings.calls;
    let mut calls = Vec::with_capacity(alloc, settings.calls as usize).map_err(|_| Memory)?;
    for k in 0..settings.calls {
        let call = next_call(settings, before + k, words);
        calls.push(call).map_err(|_| Memory)?;
    }
    Ok(List::from_vec(calls))
}

// The call with so many calls before it, by the next two words.
fn next_call(settings: &Settings, before: u32, words: &mut Words) -> PlanCall
    requires keys { 1 ≤ settings.now.keys }
    requires before { before < 100000 }
    requires drawn { HasDrawn settings.now.seed (2 * before) words.old }
    ensures call { result ≡ planned_call settings.now before }
    ensures words { HasDrawn settings.now.seed (2 * (before + 1)) words.new }
{
    let kind_word = words.draw();
    let key_word = words.draw();
    numbered_call(settings, before + 1, kind_word, key_word)
}

// The call with this number, by its two words.
fn numbered_call(settings: &Settings, number: u32, kind_word: u32, key_word: u32) -> PlanCall
    requires { 1 ≤ settings.now.keys }
    ensures { result ≡ numbered_call settings.now number kind_word key_word }
{
    let key = key_word % settings.keys;
    if kind_word % 100 < settings.writes {
        PlanCall {
            kind: Kind::Write,
            key,
            value: number,
        }
    } else {
        PlanCall {
            kind: Kind::Read,
            key,
            value: 0,
        }
    }
}

#[cfg(test)]
mod tests;
