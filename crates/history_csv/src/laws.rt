//! Laws of what is read and written, as theorems: functions whose contracts are all that they are for.

ghost use Rattle.history_csv.specs.Laws.{RecordedReadsBack, RecordsAreFew, WrittenReadsBack};

/// What bytes read as is a valid history, and each of its operations has a record of at most 1,000,000.
pub fn records_are_few()
    ensures { RecordsAreFew }
{}

/// The text of at most 1,000,000 lines, whose ticks are in order and whose writes have a value, reads as the
/// history of the entries that the lines stand for.
pub fn what_is_written_reads_back()
    ensures { WrittenReadsBack }
{}

/// The recorded history of at most 1,000,000 calls, whose ticks are in order and whose writes have a value,
/// reads as the history of the entries that the calls' lines stand for: record number n is the n-th call.
/// The two last columns are not looked at.
pub fn what_is_recorded_reads_back()
    ensures { RecordedReadsBack }
{}
