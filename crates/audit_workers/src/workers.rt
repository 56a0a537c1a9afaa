//! Workers side by side, and the verdicts of what they claimed, at the places of their keys.
ghost use Rattle.std.specs.Prelude.{◌≡◌, ℕ, ◌+◌, ◌*◌, ◌<◌, ◌≤◌, List, [], ◌∷◌, ◌++◌, length, All, IfOk, OnOk};
ghost use Rattle.stale_model.specs.Valid.{IsValidHistory};
ghost use Rattle.stale_model.specs.PrintedVerdicts.{IsPrintedVerdict, ArePrintedVerdicts};
ghost use Rattle.stale_model.specs.Truth.{EachKeyHas, IsTrueOf};
ghost use Rattle.stale_model.specs.Shown.{IsShown};
ghost use Rattle.audit_workers.specs.Claims.{IsClaim, AreClaims, keys_of};
ghost use Rattle.audit_workers.specs.Workers.{IsReady, IsDone, IsFilled, IsGathered};

use crate::claims::{Claim, judge_claims};
use audit_ports::Gate;
use stale_model::{History, List, Memory, Verdict};
use std::alloc::Global;
use std::thread;
use std::thread::Threads;
use ticket_clock::{Clock, Seat};

// As many workers as are of use: no more than there are keys, and at least one.
fn useful(workers: u32, keys: u64) -> u64
    requires { (1 ≤ workers) × (workers ≤ 64) }
    ensures { (1 ≤ result) × (result ≤ workers) }
{
    u64::from(workers).min(keys).max(1)
}

// A seat for each worker, with a ticket for each key and one more.
fn seats(
    alloc: Global,
    keys: u64,
    workers: u64,
    clock: &Clock,
    whole: &mut Seat,
) -> Result<Vec<Seat>, Memory>
    requires own { whole.old.clock ≡ clock.now.id }
    requires left { (whole.old.left ≡ workers * (keys + 1)) × (whole.old.drawn ≡ []) }
    requires small { (keys ≤ 1000000) × (workers ≤ 64) }
    ensures seats { IfOk result (λ seats. All (λ seat. IsReady clock.now keys seat) seats.items
        × (length seats.items ≡ workers)) }
    ensures whole { OnOk result ((whole.new.clock ≡ clock.now.id) × (whole.new.left ≡ 0)
        × (whole.new.drawn ≡ [])) }
{
    let mut seats = Vec::new(alloc);
    for _worker in 0..workers {
        let seat = clock.split(whole, keys + 1);
        seats.push(seat).map_err(|_| Memory)?;
    }
    Ok(seats)
}

// What one worker claims with its seat.
fn work<G: Gate>(
    alloc: Global,
    history: &History,
    clock: &Clock,
    mut seat: Seat,
    gate: &G,
) -> Result<(Seat, List<Claim>), Memory>
    requires valid { IsValidHistory history.now }
    requires ready { IsReady clock.now (length history.now.keys) seat }
    ensures { IfOk result (λ done. IsDone clock.now history.now.keys done.0 done.1) }
{
    let claims = judge_claims(alloc, history, clock, &mut seat, gate)?;
    Ok((seat, claims))
}

// What each worker claims, each in a thread of its own where one can be made.
fn worked<R: Threads + Sync, G: Gate>(
    rt: &R,
    alloc: Global,
    history: &History,
    clock: &Clock,
    seats: Vec<Seat>,
    gate: &G,
) -> Result<Vec<Result<(Seat, List<Claim>), Memory>>, Memory>
    requires valid { IsValidHistory history.now }
    requires ready { All (λ seat. IsReady clock.now (length history.now.keys) seat) seats.items }
    ensures many { IfOk result (λ all. length all.items ≡ length seats.items) }
    ensures done { IfOk result (λ all. All (λ one.
        IfOk one (λ done. IsDone clock.now history.now.keys done.0 done.1)) all.items) }
{
    let all = thread::map_vec(
        rt,
        seats,
        &|seat: Seat| -> Result<(Seat, List<Claim>), Memory>
            requires { IsReady clock.now (length history.now.keys) seat
                × IsValidHistory history.now }
            ensures { IfOk result (λ done.
                IsDone clock.entry.now history.entry.now.keys done.0 done.1) }
        { work(alloc, history, clock, seat, gate) },
    );
    match all {
        Ok(all) => Ok(all),
        Err(_) => Err(Memory),
    }
}

// A place for the verdict of each key, with some verdict in it.
fn places(alloc: Global, keys: u64) -> Result<Vec<Verdict>, Memory>
    ensures { IfOk result (λ verdicts. length verdicts.items ≡ keys) }
{
    let mut verdicts = Vec::with_capacity(alloc, keys as usize).map_err(|_| Memory)?;
    for _key in 0..keys {
        verdicts
            .push(Verdict::Infinite { rec: 0 })
            .map_err(|_| Memory)?;
    }
    Ok(verdicts)
}

// Puts the verdict of a claim at the place of its key.
fn put(history: &History, claim: Claim, verdicts: &mut Vec<Verdict>)
    requires claim { IsClaim IsPrintedVerdict history.now.keys claim }
    requires many { length verdicts.old.items ≡ length history.now.keys }
    ensures many { length verdicts.new.items ≡ length history.now.keys }
    ensures filled { (claimed : List ℕ) → IsFilled history.now.keys claimed verdicts.old.items
        → IsFilled history.now.keys (claimed ++ claim.key ∷ []) verdicts.new.items }
{
    verdicts[claim.key as usize - 1] = claim.verdict;
}

// Puts the verdicts of the claims at the places of their keys.
fn put_all(history: &History, claims: Vec<Claim>, verdicts: &mut Vec<Verdict>)
    requires claims { AreClaims IsPrintedVerdict history.now.keys claims.items }
    requires many { length verdicts.old.items ≡ length history.now.keys }
    ensures many { length verdicts.new.items ≡ length history.now.keys }
    ensures filled { (claimed : List ℕ) → IsFilled history.now.keys claimed verdicts.old.items
        → IsFilled history.now.keys (claimed ++ keys_of claims.items) verdicts.new.items }
{
    for claim in claims {
        put(history, claim, verdicts);
    }
}

// Joins the seat of a worker that is done, and puts the verdicts of its claims at their places.
fn take_in(
    history: &History,
    clock: &Clock,
    seat: Seat,
    claims: List<Claim>,
    whole: &mut Seat,
    verdicts: &mut Vec<Verdict>,
)
    requires own { whole.old.clock ≡ clock.now.id }
    requires done { IsDone clock.now history.now.keys seat claims }
    requires many { length verdicts.old.items ≡ length history.now.keys }
    ensures own { whole.new.clock ≡ clock.now.id }
    ensures many { length verdicts.new.items ≡ length history.now.keys }
    ensures left { length whole.new.drawn + whole.new.left
        ≡ length whole.old.drawn + whole.old.left + (length history.now.keys + 1) }
    ensures gathered { (calls : ℕ)
        → IsGathered history.now.keys calls whole.old.drawn verdicts.old.items
        → IsGathered history.now.keys (calls + 1) whole.new.drawn verdicts.new.items }
{
    put_all(history, claims.into_vec(), verdicts);
    clock.join(whole, seat);
}

// Joins the seats of all workers, and puts their verdicts at the places of their keys.
fn gather(
    history: &History,
    clock: &Clock,
    mut done: Vec<Result<(Seat, List<Claim>), Memory>>,
    whole: &mut Seat,
    verdicts: &mut Vec<Verdict>,
) -> Result<(), Memory>
    requires own { whole.old.clock ≡ clock.now.id }
    requires fresh { (whole.old.drawn ≡ []) × (whole.old.left ≡ 0) }
    requires done { All (λ one.
        IfOk one (λ done. IsDone clock.now history.now.keys done.0 done.1)) done.items }
    requires many { length verdicts.old.items ≡ length history.now.keys }
    ensures own { whole.new.clock ≡ clock.now.id }
    ensures left { OnOk result (length whole.new.drawn + whole.new.left
        ≡ length done.items * (length history.now.keys + 1)) }
    ensures gathered { OnOk result
        (IsGathered history.now.keys (length done.items) whole.new.drawn verdicts.new.items) }
{
    while let Some(one) = done.pop() {
        let (seat, claims) = one?;
        take_in(history, clock, seat, claims, whole, verdicts);
    }
    Ok(())
}

/// The verdict of each key of a valid history, in the order of the keys, the same for every number
/// of workers from 1 to 64. The keys are judged in threads, by no more workers than there are keys.
/// Before a key is judged the gate is entered with the key's place, counted from 0, and after that
/// it is left. The error says that memory ran out, and it comes after all workers have ended.
pub fn judge_all<R: Threads + Sync, G: Gate>(
    rt: &R,
    alloc: Global,
    history: &History,
    workers: u32,
    gate: &G,
) -> Result<List<Verdict>, Memory>
    requires valid { IsValidHistory history.now }
    requires some_worker { 1 ≤ workers }
    requires few_workers { workers ≤ 64 }
    ensures truth { IfOk result (EachKeyHas IsTrueOf history.now.keys) }
    ensures shown { IfOk result (EachKeyHas IsShown history.now.keys) }
    ensures printed { IfOk result (ArePrintedVerdicts history.now.keys) }
{
    let keys = history.keys.as_slice().len() as u64;
    let workers = useful(workers, keys);
    let (clock, mut whole) = Clock::new(alloc, workers * (keys + 1))?;
    let seats = seats(alloc, keys, workers, &clock, &mut whole)?;
    let done = worked(rt, alloc, history, &clock, seats, gate)?;
    let mut verdicts = places(alloc, keys)?;
    gather(history, &clock, done, &mut whole, &mut verdicts)?;
    clock.look(&mut whole);
    Ok(List::from_vec(verdicts))
}
