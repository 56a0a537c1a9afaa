//! Orders worked by hand, with all their moments.

ghost use Rattle.order_moments.specs.Moments.{AreMoments};
ghost use Rattle.order_moments.specs.Examples.{stale_order, stale_moments, overlapping_order, overlapping_moments, open_order, open_moments, twice_stale_order, twice_stale_moments, slack_order, slack_moments};

/// A stale read is moved back to where the later write ended, and no further.
pub fn read_three_ticks_stale()
    ensures { AreMoments stale_order stale_moments }
{}

/// A read that is before a write which started earlier, but ended later, is not moved.
pub fn read_before_a_write_that_goes_on()
    ensures { AreMoments overlapping_order overlapping_moments }
{}

/// A write that never ended holds nothing back.
pub fn write_that_never_ended()
    ensures { AreMoments open_order open_moments }
{}

/// Reads that are stale together happen at one tick.
pub fn reads_stale_together()
    ensures { AreMoments twice_stale_order twice_stale_moments }
{}

/// Slack counts: from the least start and up to the greatest finish.
pub fn slack_of_a_read_and_a_write()
    ensures { AreMoments slack_order slack_moments }
{}
