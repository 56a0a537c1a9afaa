//! Laws of the score, as theorems: functions whose contracts are all that they are for.

ghost use Rattle.live_score.specs.Laws.{ScoresNeverFall, NoScoreComesBack, ReadsAfterTheirWritesAreNotEarly, LastScoresAreOfKeys};

/// The score never falls while more operations come in, where none writes a value that was written before.
pub fn scores_never_fall()
    ensures { ScoresNeverFall }
{}

/// Once the operations that count have no Δ, they have none whatever more comes in.
pub fn no_score_comes_back()
    ensures { NoScoreComesBack }
{}

/// A read that is fed after its write has not finished before the write starts: no score is lost by it.
pub fn reads_after_their_writes_are_not_early()
    ensures { ReadsAfterTheirWritesAreNotEarly }
{}

/// At the end of a valid key that is neither duplicate nor unmatched, the score is the least Δ of the key, and there is none
/// exactly where the key has no Δ; no read waits. It is so whatever the order in which the operations were fed.
pub fn last_scores_are_of_keys()
    ensures { LastScoresAreOfKeys }
{}
