//! Keys that are claimed by tickets, and judged.
ghost use Rattle.std.specs.Prelude.{◌≡◌, ◌<◌, ◌≤◌, length, IfOk, OnErr};
ghost use Rattle.stale_model.specs.Valid.{IsValidHistory};
ghost use Rattle.stale_model.specs.PrintedVerdicts.{IsPrintedVerdict};
ghost use Rattle.stale_model.specs.Truth.{IsTrueOf};
ghost use Rattle.stale_model.specs.Shown.{IsShown};
ghost use Rattle.audit_workers.specs.Claims.{IsClaim, AreClaims, DrewClaims, DrewMore};

use crate::verdict_of;
use audit_ports::Gate;
use stale_model::{History, List, Memory, Verdict};
use std::alloc::Global;
use ticket_clock::{Clock, Seat};

/// A key that a worker has claimed, counted from 1, and its verdict.
#[derive(Drop, Debug)]
pub struct Claim {
    pub key: u32,
    pub verdict: Verdict,
}

// Judges the key of this number, counted from 1. The gate is left also where memory ran out.
fn claim_key<G: Gate>(
    alloc: Global,
    history: &History,
    number: u64,
    gate: &G,
) -> Result<Claim, Memory>
    requires valid { IsValidHistory history.now }
    requires number { (1 ≤ number) × (number ≤ length history.now.keys) }
    ensures key { IfOk result (λ claim. claim.key ≡ number) }
    ensures claim { IfOk result (IsClaim IsPrintedVerdict history.now.keys) }
{
    let piece = (number - 1) as u32;
    gate.enter(piece);
    let verdict = verdict_of(alloc, &history.keys.as_slice()[piece as usize]);
    gate.leave(piece);
    Ok(Claim {
        key: piece + 1,
        verdict: verdict?,
    })
}

/// What one worker does: it draws tickets, and judges the key of each, until one is above the
/// number of keys. Ticket t claims key t; no ticket is given twice, so no two workers claim one key.
/// Before a key is judged the gate is entered with the key's place, counted from 0, and after that
/// it is left. The error says that memory ran out, and nothing is claimed then.
pub fn judge_claims<G: Gate>(
    alloc: Global,
    history: &History,
    clock: &Clock,
    seat: &mut Seat,
    gate: &G,
) -> Result<List<Claim>, Memory>
    requires valid { IsValidHistory history.now }
    requires own { seat.old.clock ≡ clock.now.id }
    requires left { length history.now.keys < seat.old.left }
    ensures truth { IfOk result (AreClaims IsTrueOf history.now.keys) }
    ensures shown { IfOk result (AreClaims IsShown history.now.keys) }
    ensures printed { IfOk result (AreClaims IsPrintedVerdict history.now.keys) }
    ensures drawn { IfOk result (λ claims.
        DrewClaims (length history.now.keys) claims seat.old seat.new) }
    ensures err { OnErr result (DrewMore seat.old seat.new) }
{
    let keys = history.keys.as_slice().len() as u64;
    let mut claims = Vec::new(alloc);
    // Tickets of one seat rise, so after one draw more than there are keys one is above.
    for _turn in 0..keys + 1 {
        let ticket = clock.draw(seat);
        if ticket > keys {
            return Ok(List::from_vec(claims));
        }
        let claim = claim_key(alloc, history, ticket, gate)?;
        claims.push(claim).map_err(|_| Memory)?;
    }
    unreachable!()
}
