//! Laws of generated histories, as theorems: functions whose contracts are all that they are for.

ghost use Rattle.history_gen.specs.Laws.{GeneratedLinesReadBack};

/// The lines of at most 1,000,000 operations on 1 to 100,000 keys are as many, each of them is one that can be
/// read, and their text, which is shorter than 40,000,000 bytes, reads as the history of the entries that they
/// stand for.
pub fn generated_lines_read_back()
    ensures { GeneratedLinesReadBack }
{}
