//! Laws of the histories of recorded runs, as theorems: functions whose contracts are all that they are for.
#![tactic(auto)]

ghost use Rattle.recorded_laws.specs.Laws.{DrawnAreTicks, RunsAreReadable, RunsReadBack, RunsHaveNoFaults};

/// The tickets of a run may stand in a history, where they are 1 to their number and no more than 2^62 - 1.
pub fn drawn_are_ticks()
    ensures { DrawnAreTicks }
{}

/// The calls of a recorded run, whose tickets are 1 to 2^62 - 1, may stand in a history: there are at most 1,000,000, and
/// the line of each reads back.
pub fn runs_are_readable()
    ensures { RunsAreReadable }
{}

/// The text of the recorded history of a run is read back as the history of its calls, in their order.
pub fn runs_read_back()
    ensures { RunsReadBack }
{}

/// No key of the recorded history of a run is duplicate, unmatched or early.
pub fn runs_have_no_faults()
    ensures { RunsHaveNoFaults }
{}
