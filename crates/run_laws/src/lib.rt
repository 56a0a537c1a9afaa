//! Laws of the definitions of recorded runs, and runs worked by hand, as theorems: functions whose contracts are all
//! that they are for.
#![tactic(auto)]

pub mod examples;

ghost use Rattle.run_laws.specs.Laws.{HeldIsFirstGreatest, FreshestIsFirstGreatest, TookStandInJournal, ReadsReturnEarlierWrites, ReplicasDropNone};
ghost use Rattle.run_laws.specs.Parts.{PartsAreRecorded, TicketsAreOfParts};

/// What is held of a key is the pair of the write or repair on it with the greatest stamp, on a tie of the first; nothing
/// where none has a stamp above 0.
pub fn held_is_first_greatest()
    ensures { HeldIsFirstGreatest }
{}

/// The freshest of some replies has the greatest stamp, and is the first that has it.
pub fn freshest_is_first_greatest()
    ensures { FreshestIsFirstGreatest }
{}

/// A reply that a client took of a replica, with the number of one of its calls, stands in the journal of the replica as
/// the reply to that call.
pub fn took_stand_in_journal()
    ensures { TookStandInJournal }
{}

/// A read of a recorded run returns the initial value, or one that a call wrote on its key that started before the read
/// finished.
pub fn reads_return_earlier_writes()
    ensures { ReadsReturnEarlierWrites }
{}

/// A replica serves all requests of a run, in the order in which they come.
pub fn replicas_drop_none()
    ensures { ReplicasDropNone }
{}

/// The parts of a run, what each client and each replica has of it at its end, are a recorded run, once the calls of all
/// clients stand by rising start.
pub fn parts_are_recorded()
    ensures { PartsAreRecorded }
{}

/// The tickets of the parts of a run are those of the run, in another order.
pub fn tickets_are_of_parts()
    ensures { TicketsAreOfParts }
{}
