//! Laws of the words, as theorems: functions whose contracts are all that they are for.

ghost use Rattle.audit_words.specs.Laws.{OneTaskAtMost};

/// Words that ask for a run of the store ask for no other task.
pub fn one_task_at_most()
    ensures { OneTaskAtMost }
{}
