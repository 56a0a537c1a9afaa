//! Runs worked by hand: two that are recorded runs, and changes of them that are none.

ghost use Rattle.std.specs.Prelude.{◌≡◌, [], ◌∷◌};
ghost use Rattle.stale_model.specs.declared.store.Ask.TheVariants.{Write as AskWrite, Repair};
ghost use Rattle.stale_model.specs.Journals.{nothing, held};
ghost use Rattle.stale_model.specs.RecordedRuns.{AreTimed, AreTaken};
ghost use Rattle.run_laws.specs.Examples.{IsRecorded, IsNotRecorded, asked, asked_of, answered, second_write, two_writes, call_not_made, finish_is_the_serve, reply_in_no_journal, stamp_not_as_sent, stamp_not_the_start, calls_overlap, served_too_late, repaired_read, ticket_twice, older_value, repair_not_sent, repair_to_both, falling_starts, one_reply_twice};

/// Two writes of one client to one replica. The stamp of a write is its start, and not the ticket at which it was
/// served or finished.
pub fn two_writes_are_recorded()
    ensures { IsRecorded two_writes }
{}

/// A read takes a fresh reply and then an older one: it returns the value of the fresh one, not that of the last. The
/// repair goes to the replica of the older reply alone, after the read finished, and the write comes there later still:
/// a replica serves what it is sent in any order of clients, and also after the calls that sent it are done.
pub fn a_repaired_read_is_recorded()
    ensures { IsRecorded repaired_read }
{}

/// A planned call has no entry, and no replica served it: a run in which a client stopped early is none, though all
/// that it has fits together.
pub fn planned_call_that_was_not_made()
    ensures { IsNotRecorded call_not_made }
{}

/// A write finishes at the ticket at which its reply was served: each of the two is a step of its own, with its own
/// ticket.
pub fn finish_at_its_own_serve()
    ensures tickets { AreTimed finish_is_the_serve.entries finish_is_the_serve.journals → ⊥ }
    ensures none { IsNotRecorded finish_is_the_serve }
{}

/// A write finishes at the ticket at which a replica serves another client's repair: no ticket stands twice in the
/// whole run, and not only among the calls, or among those of one client.
pub fn ticket_that_stands_twice()
    ensures { IsNotRecorded ticket_twice }
{}

/// A client starts a call before its last one finished: it makes one call after the other.
pub fn calls_that_overlap()
    ensures { IsNotRecorded calls_overlap }
{}

/// Of the entries of two clients the one with the later start stands first: entries stand by rising start.
pub fn entries_by_falling_start()
    ensures { IsNotRecorded falling_starts }
{}

/// A call took a reply that no replica says it gave: replies aren't taken on the word of the call.
pub fn reply_that_stands_in_no_journal()
    ensures reply { AreTaken reply_in_no_journal.settings reply_in_no_journal.journals second_write → ⊥ }
    ensures none { IsNotRecorded reply_in_no_journal }
{}

/// A call took a reply with another stamp than the replica gave: what was taken is the whole reply, and not its ticket
/// alone.
pub fn reply_that_was_not_sent_so()
    ensures { IsNotRecorded stamp_not_as_sent }
{}

/// A call took a reply that was served after it finished: a quorum is of replies that came while the call ran.
pub fn reply_that_was_served_too_late()
    ensures { IsNotRecorded served_too_late }
{}

/// A read took one reply twice: a quorum is of as many replicas as it has replies.
pub fn reply_that_was_taken_twice()
    ensures { IsNotRecorded one_reply_twice }
{}

/// The reply to a write has another stamp than its start: a replica doesn't choose the stamp, even where the call took
/// what the replica gave.
pub fn reply_with_another_stamp()
    ensures { IsNotRecorded stamp_not_the_start }
{}

/// A read returns the value of the reply that it took last, which is older: the first reply with the greatest stamp
/// decides.
pub fn read_of_an_older_reply()
    ensures { IsNotRecorded older_value }
{}

/// The replica whose reply was older never serves the repair: a read has to send it.
pub fn repair_that_was_not_sent()
    ensures { IsNotRecorded repair_not_sent }
{}

/// The replica whose reply was the freshest serves a repair too: none goes where the reply was not older.
pub fn repair_that_was_not_needed()
    ensures { IsNotRecorded repair_to_both }
{}

/// What a replica holds of a key: the pair with the greatest stamp, and not the last; of two with one stamp the first;
/// and what comes of another key changes nothing.
pub fn pairs_that_are_held()
    ensures greatest { held 0 (answered (asked 0 1 5 (AskWrite 2)) 0 6 5 2
        ∷ answered (asked 1 1 3 (AskWrite 1)) 0 7 3 1 ∷ []) ≡ record { stamp = 5; value = 2 } }
    ensures first { held 0 (answered (asked 0 1 8 (Repair 5 1)) 0 9 5 1
        ∷ answered (asked 1 1 7 (Repair 5 2)) 0 10 5 2 ∷ []) ≡ record { stamp = 5; value = 1 } }
    ensures another_key { held 0 (answered (asked 0 1 1 (AskWrite 1)) 0 2 1 1
        ∷ answered (asked_of 1 1 1 3 (AskWrite 2)) 0 4 3 2 ∷ []) ≡ record { stamp = 1; value = 1 } }
    ensures no_write { held 2 (answered (asked 0 1 1 (AskWrite 1)) 0 2 1 1
        ∷ answered (asked_of 1 1 1 3 (AskWrite 2)) 0 4 3 2 ∷ []) ≡ nothing }
{}
