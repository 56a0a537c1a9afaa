//! Whether a trace is a recorded run of its plan.

ghost use Rattle.std.specs.Prelude.{IfOk};
ghost use Rattle.stale_model.specs.Settings.{AreSettings};
ghost use Rattle.quorum_client.specs.Plans.{plan_for};
ghost use Rattle.trace_check.specs.Parts.{IsPartOf};

mod by_client;
mod planned;
mod sent;
mod served;
mod taken;
mod timed;

use crate::Trace;
use crate::judging::by_client::entries_by_client;
use crate::judging::planned::are_planned;
use crate::judging::sent::are_sent;
use crate::judging::served::are_journals;
use crate::judging::taken::{are_taken, read_freshest};
use crate::judging::timed::are_timed;
use quorum_client::plan_of;
use stale_model::{Memory, Settings};
use std::alloc::Global;

/// What is found of a trace.
#[derive(Clone, Copy, Debug, PartialEq, Eq)]
pub enum Part {
    /// It is a recorded run.
    Good,
    /// This part, of 1 to 6, is the first that fails.
    Bad { part: u8 },
}

/// Whether the trace is a recorded run of the plan of these settings, or the first part that fails:
///
/// 1. Each client made its planned calls, in order, and no others.
/// 2. Calls stand by rising start, a client makes one after the other, and no ticket stands twice.
/// 3. Each call took as many replies as its quorum says, of different replicas, each of them given while it ran.
/// 4. A read returns the value of the first reply with the greatest stamp.
/// 5. Each journal is one of its replica.
/// 6. Each journal has of each client what its calls send there, and nothing else.
///
/// # Errors
/// `Memory` may come at any time.
pub fn recorded(alloc: Global, settings: &Settings, trace: &Trace) -> Result<Part, Memory>
    requires { AreSettings settings.now }
    ensures { IfOk result (IsPartOf settings.now (plan_for settings.now) trace.now) }
{
    let plan = plan_of(alloc, settings)?;
    let entries = trace.entries.as_slice();
    let journals = trace.journals.as_slice();
    let groups = entries_by_client(alloc, settings.clients, entries)?;
    if !are_planned(settings, &plan, entries, groups.as_slice()) {
        return Ok(Part::Bad { part: 1 });
    }
    if !are_timed(
        alloc,
        settings.clients,
        entries,
        groups.as_slice(),
        journals,
    )? {
        return Ok(Part::Bad { part: 2 });
    }
    if !are_taken(alloc, settings, entries, journals)? {
        return Ok(Part::Bad { part: 3 });
    }
    if !read_freshest(entries) {
        return Ok(Part::Bad { part: 4 });
    }
    if !are_journals(alloc, journals)? {
        return Ok(Part::Bad { part: 5 });
    }
    if !are_sent(alloc, settings, entries, journals)? {
        return Ok(Part::Bad { part: 6 });
    }
    Ok(Part::Good)
}

#[cfg(test)]
mod tests;
