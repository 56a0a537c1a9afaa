//! What the answer means, as functions whose contracts are all that they are for.
ghost use Rattle.lbt_epochs.specs.TwoLaws.{AnswersExist, ListingsAreAnswered, AnswersTellWhetherListed, RefutationsAreAnswered};

/// Clusters have an answer at each d.
pub fn answers_exist()
    ensures { AnswersExist }
{}

/// Where the answer is a list of writes, it is a listing of the clusters.
pub fn listings_are_answered()
    ensures { ListingsAreAnswered }
{}

/// The answer is a list of writes exactly where the clusters have a listing: a refutation excludes all listings.
pub fn answers_tell_whether_listed()
    ensures { AnswersTellWhetherListed }
{}

/// Where the answer is a refutation, it holds: no order with k = 2 exists.
pub fn refutations_are_answered()
    ensures { RefutationsAreAnswered }
{}
