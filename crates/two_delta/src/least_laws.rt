//! What the least Δ that is printed means, as a function whose contract is all that it is for.

ghost use Rattle.two_delta.specs.LeastTwos.{PrintedLeastsAreShown};

/// What [`least_two`](crate::least_two) gives for a key without fault shows by itself that its `delta` is the least: the
/// order of operations that the listing gives is one with k = 2 there, and the refutation holds just below.
pub fn printed_leasts_are_shown()
    ensures { PrintedLeastsAreShown }
{}
