//! Laws of the two files of a recorded run, as theorems: functions whose contracts are all that they are for.
#![tactic(auto)]

ghost use Rattle.trace_laws.specs.Laws.{RunsAreTraced, RunsAreGood, AnswersAreOne};

/// The history and the journal file of a recorded run, whose tickets are 1 to 2^62 - 1, are read back as the run: its
/// entries with all that they took, and the journal of each replica.
pub fn runs_are_traced()
    ensures { RunsAreTraced }
{}

/// What the two files of a recorded run are read back as, is judged good: no part of it fails.
pub fn runs_are_good()
    ensures { RunsAreGood }
{}

/// A trace has one answer: it is good, or one part is the first that fails.
pub fn answers_are_one()
    ensures { AnswersAreOne }
{}
