//! What is made before the clients run: the boxes of the shards, with the passes and the logs.
ghost use Rattle.std.specs.Prelude.{◌≡◌, ℕ, ◌+◌, ◌<◌, ◌≤◌, false, [], ◌∷◌, ◌++◌, length, map, IfOk, OnOk, replicate, slice_index_or, vec_len};
ghost use Rattle.std.specs.Arc.{arc_value};
ghost use Rattle.stale_model.specs.Settings.{AreSettings, calls_of};
ghost use Rattle.ticket_clock.specs.Seats.{times};
ghost use Rattle.key_recorder.specs.Recorders.{PassView};
ghost use Rattle.key_recorder.specs.Prepared.{budget_on, budgets_on, first_log, IsPrepared};
ghost use Rattle.key_recorder.specs.Making.{AreFew, first_lane, with_lane};

use crate::letters::RecordLetter;
use crate::log::ShardLog;
use crate::pass::RecorderPass;
use crate::recorder::Recorder;
use post_box::{PostBox, TakerPass, Whole};
use stale_model::{List, Memory, Plan, PlanCall, Settings};
use std::alloc::Global;
use std::sync::{Arc, Wait};

impl Recorder {
    /// A recorder with as many shards as the settings say, a pass for each client, and a log for
    /// each shard. A pass may send the entries of its client's planned calls, and an end to each
    /// shard; the box of a shard has room for all of these, and its log for as many entries. The
    /// only error is want of memory.
    pub fn prepare<R: Wait>(
        rt: &R,
        alloc: Global,
        settings: &Settings,
        plan: &Plan,
    ) -> Result<(Recorder, Vec<RecorderPass>, Vec<ShardLog>), Memory>
        requires settings { AreSettings settings.now }
        requires clients { length plan.now.clients ≡ settings.now.clients }
        requires calls { (client : ℕ) → client < settings.now.clients
            → length (calls_of plan.now client) ≡ settings.now.calls }
        ensures { IfOk result (λ made. IsPrepared settings.now plan.now made.0 made.1.items
            made.2.items) }
    {
        let mut passes = new_passes(alloc, settings.clients)?;
        let mut boxes = Vec::new(alloc);
        let mut logs = Vec::new(alloc);
        for shard in 0..settings.shards {
            let log = open_shard(
                rt,
                alloc,
                settings.shards,
                shard,
                plan.clients.as_slice(),
                &mut passes,
            )?;
            keep_log(&mut boxes, &mut logs, log)?;
        }
        Ok((Recorder { boxes }, passes, logs))
    }
}

// One log more, and its box.
fn keep_log(
    boxes: &mut Vec<Arc<PostBox<RecordLetter>>>,
    logs: &mut Vec<ShardLog>,
    log: ShardLog,
) -> Result<(), Memory>
    ensures boxes { OnOk result (map (λ b. arc_value b) boxes.new.items
        ≡ map (λ b. arc_value b) boxes.old.items ++ log.box ∷ []) }
    ensures logs { OnOk result (logs.new.items ≡ logs.old.items ++ log ∷ []) }
{
    let Ok(post) = Arc::try_clone(&log.post) else {
        return Err(Memory);
    };
    let Ok(()) = boxes.push(post) else {
        return Err(Memory);
    };
    let Ok(()) = logs.push(log) else {
        return Err(Memory);
    };
    Ok(())
}

// A pass without lanes for each client.
fn new_passes(alloc: Global, clients: u32) -> Result<Vec<RecorderPass>, Memory>
    ensures many { IfOk result (λ passes. vec_len passes ≡ clients) }
    ensures each { IfOk result (λ passes. (c : ℕ) (p : PassView) → c < clients
        → slice_index_or passes.items c p ≡ record { client = c; lanes = []; closed = false }) }
{
    let mut passes = Vec::new(alloc);
    for client in 0..clients {
        let pass = RecorderPass {
            client,
            lanes: Vec::new(alloc),
            closed: false,
        };
        passes.push(pass).map_err(|_| Memory)?;
    }
    Ok(passes)
}

// The box of a shard with its log, and a lane to it for each pass.
fn open_shard<R: Wait>(
    rt: &R,
    alloc: Global,
    shards: u32,
    shard: u32,
    plans: &[List<PlanCall>],
    passes: &mut Vec<RecorderPass>,
) -> Result<ShardLog, Memory>
    requires shards { 1 ≤ shards }
    requires few { AreFew plans.now }
    requires many { vec_len passes.old ≡ length plans.now }
    requires passes { (c : ℕ) (p : PassView) → c < vec_len passes.old
        → ((slice_index_or passes.old.items c p).client ≡ c)
        × ((slice_index_or passes.old.items c p).closed ≡ false) }
    ensures many { vec_len passes.new ≡ vec_len passes.old }
    ensures room { IfOk result (λ log. log.box.capacity ≡ budgets_on shards shard plans.now) }
    ensures log { IfOk result (λ log. log ≡ first_log (length plans.now) shard log.box) }
    ensures passes { IfOk result (λ log. (c : ℕ) (p : PassView) → c < length plans.now
        → slice_index_or passes.new.items c p ≡ with_lane (first_lane log.box
        (budget_on shards shard (slice_index_or plans.now c []))) (slice_index_or passes.old.items c p)) }
{
    let capacity = budgets(shards, shard, plans);
    let (post, mut whole) = PostBox::<RecordLetter>::open(alloc, capacity)?;
    give_senders(rt, &post, &mut whole, shards, shard, plans, passes)?;
    let taker = post.split_taker(rt, &mut whole);
    let post = Arc::new(alloc, post).map_err(|_| Memory)?;
    first_log(
        alloc,
        shard,
        plans.len() as u32,
        capacity,
        post,
        whole,
        taker,
    )
}

// The log of a shard that has taken nothing.
fn first_log(
    alloc: Global,
    shard: u32,
    clients: u32,
    capacity: u32,
    post: Arc<PostBox<RecordLetter>>,
    whole: Whole<RecordLetter>,
    taker: TakerPass<RecordLetter>,
) -> Result<ShardLog, Memory>
    requires room { (arc_value post).capacity ≤ capacity }
    requires whole { (whole.box ≡ arc_value post) × (whole.gathered ≡ []) }
    requires numbers { (s : ℕ) → clients ≤ s → times s whole.numbers ≡ 0 }
    requires taker { taker ≡ record { box = arc_value post; taken = []; empties = 0 } }
    ensures { IfOk result (λ log. log ≡ first_log clients shard (arc_value post)) }
{
    let ended = none_ended(alloc, clients)?;
    let Ok(entries) = Vec::with_capacity(alloc, capacity as usize) else {
        return Err(Memory);
    };
    Ok(ShardLog {
        shard,
        clients,
        post,
        whole,
        taker: Some(taker),
        ended,
        entries,
    })
}

// For each client, that it has not ended.
fn none_ended(alloc: Global, clients: u32) -> Result<Vec<bool>, Memory>
    ensures { IfOk result (λ ended. ended.items ≡ replicate clients false) }
{
    vec![in alloc; false; clients as usize].map_err(|_| Memory)
}

// A sender of this box for each pass, with the budget of its client.
fn give_senders<R: Wait>(
    rt: &R,
    post: &PostBox<RecordLetter>,
    whole: &mut Whole<RecordLetter>,
    shards: u32,
    shard: u32,
    plans: &[List<PlanCall>],
    passes: &mut Vec<RecorderPass>,
) -> Result<(), Memory>
    requires shards { 1 ≤ shards }
    requires few { AreFew plans.now }
    requires own { whole.old.box ≡ post.now }
    requires none { whole.old.numbers ≡ [] }
    requires budget { whole.old.budget ≡ budgets_on shards shard plans.now }
    requires many { vec_len passes.old ≡ length plans.now }
    requires passes { (c : ℕ) (p : PassView) → c < vec_len passes.old
        → ((slice_index_or passes.old.items c p).client ≡ c)
        × ((slice_index_or passes.old.items c p).closed ≡ false) }
    ensures many { vec_len passes.new ≡ vec_len passes.old }
    ensures numbers { OnOk result ((s : ℕ) → length plans.now ≤ s → times s whole.new.numbers ≡ 0) }
    ensures whole { OnOk result (whole.new ≡ record whole.old {
      budget = whole.new.budget;
      numbers = whole.new.numbers;
    }) }
    ensures passes { OnOk result ((c : ℕ) (p : PassView) → c < length plans.now
        → slice_index_or passes.new.items c p ≡ with_lane (first_lane post.now
        (budget_on shards shard (slice_index_or plans.now c []))) (slice_index_or passes.old.items c p)) }
{
    for client in 0..plans.len() {
        let budget = budget(shards, shard, plans[client].as_slice());
        let sender = post.split_sender(rt, whole, client as u32, budget);
        passes[client].add_lane(sender)?;
    }
    Ok(())
}

// How many letters a client with these calls sends to a shard.
fn budget(shards: u32, shard: u32, calls: &[PlanCall]) -> u32
    requires shards { 1 ≤ shards }
    requires few { length calls.now ≤ 100000 }
    ensures budget { result ≡ budget_on shards shard calls.now }
    ensures few { result ≤ length calls.now + 1 }
{
    calls
        .iter()
        .filter(|call| call.key % shards == shard)
        .count() as u32
        + 1
}

// How many letters all clients send to a shard.
fn budgets(shards: u32, shard: u32, plans: &[List<PlanCall>]) -> u32
    requires shards { 1 ≤ shards }
    requires few { AreFew plans.now }
    ensures sum { result ≡ budgets_on shards shard plans.now }
    ensures some { 1 ≤ result }
{
    let mut sum = 0;
    for calls in plans {
        sum += budget(shards, shard, calls.as_slice());
    }
    sum
}
