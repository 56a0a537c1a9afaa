//! What `check_two` accepts makes delta the least, as functions whose contracts are all that they are for.

ghost use Rattle.two_delta.specs.LeastTwos.{ShownTwosAreLeast, AcceptedTwosAreLeast};

/// An order in which each read returns one of the last two writes at delta, and a refutation at delta - 1 where delta is
/// above 0, make delta the least d at which such an order exists.
pub fn shown_twos_are_least()
    ensures { ShownTwosAreLeast }
{}

/// What [`check_two`](crate::check_two) accepts of a valid key that is neither duplicate nor unmatched makes delta the
/// least d at which an order exists in which each read returns one of the last two writes.
pub fn accepted_twos_are_least()
    ensures { AcceptedTwosAreLeast }
{}
