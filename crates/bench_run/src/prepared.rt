//! All memory of a run, made before it starts.
ghost use Rattle.std.specs.Prelude.{◌≡◌, IfOk};
ghost use Rattle.stale_model.specs.Settings.{AreSettings};
ghost use Rattle.quorum_client.specs.Plans.{plan_for};
ghost use Rattle.bench_run.specs.Ready.{tickets};

use crate::boxes::{NoteBox, ReplyBox};
use crate::job::{BenchEnd, JobParts};
use crate::members::{Members, tickets_of};
use crate::parts::ClientParts;
use crate::runner::Runner;
use key_recorder::{Recorder, RecorderPass, ShardLog};
use quorum_client::{ClientEnd, plan_of};
use stale_model::{JournalEntry, List, Memory, Settings};
use std::alloc::Global;
use std::marker::Model;
use std::sync::{Arc, Wait};
use ticket_clock::{Clock, Seat};

/// A run that is ready to start, with all its memory. A contract sees its settings and its plan.
#[derive(Drop)]
pub struct Prepared {
    pub(crate) settings: Settings,
    pub(crate) clock: Arc<Clock>,
    // The seat from which all others were split off.
    pub(crate) seat: Seat,
    pub(crate) boxes: Vec<NoteBox>,
    pub(crate) inboxes: Vec<ReplyBox>,
    pub(crate) replicas: Vec<JobParts>,
    pub(crate) clients: Vec<ClientParts>,
    pub(crate) recorder: Recorder,
    pub(crate) passes: Vec<RecorderPass>,
    pub(crate) logs: Vec<ShardLog>,
    // Room for what the run makes.
    pub(crate) runners: Vec<Runner>,
    pub(crate) client_ends: Vec<ClientEnd>,
    pub(crate) ends: Vec<BenchEnd>,
    pub(crate) journals: Vec<List<JournalEntry>>,
}

impl Model for Prepared {
    ghost use Rattle.bench_run.specs.Prepared.{PreparedView, IsReadyRun};
    ghost use Rattle.bench_run.specs.Ready.{plan_in};

    ghost Value = { PreparedView };

    ghost view = { λ p. record { settings = p.settings; plan = plan_in p.clients.items } };

    ghost invariant = { IsReadyRun };
}

/// Makes all that a run of these settings needs: its clock, its boxes with their passes, and the room of all lists.
///
/// # Errors
/// `Memory` where memory ran out.
pub fn prepare<R: Wait>(rt: &R, alloc: Global, settings: &Settings) -> Result<Prepared, Memory>
    requires { AreSettings settings.now }
    ensures settings { IfOk result (λ p. p.settings ≡ settings.now) }
    ensures plan { IfOk result (λ p. p.plan ≡ plan_for settings.now) }
{
    let plan = plan_of(alloc, settings)?;
    let (recorder, passes, logs) = Recorder::prepare(rt, alloc, settings, &plan)?;
    let Members {
        clock,
        seat,
        boxes,
        inboxes,
        replicas,
        clients,
    } = Members::prepare(rt, alloc, settings, plan)?;
    let runners = Vec::with_capacity(alloc, settings.clients as usize).map_err(|_| Memory)?;
    let client_ends = Vec::with_capacity(alloc, settings.clients as usize).map_err(|_| Memory)?;
    let ends = Vec::with_capacity(alloc, settings.replicas as usize).map_err(|_| Memory)?;
    let journals = Vec::with_capacity(alloc, settings.replicas as usize).map_err(|_| Memory)?;
    Ok(Prepared {
        settings: *settings,
        clock,
        seat,
        boxes,
        inboxes,
        replicas,
        clients,
        recorder,
        passes,
        logs,
        runners,
        client_ends,
        ends,
        journals,
    })
}

impl Prepared {
    /// How many tickets the run may draw.
    pub fn tickets(&self) -> u64
        ensures { result ≡ tickets self.now.settings }
    {
        tickets_of(&self.settings)
    }
}
