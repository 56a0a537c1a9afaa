//! What the orders with both ends moved are, and what the clusters with f later say of them, as functions whose
//! contracts are all that they are for.

ghost use Rattle.both_sides.specs.LeastSides.{HalfGapsAreLeast, PrintedSideOrdersAreSideOrders, PairsHoldOnBothSides, EarlyReadsAreEarlyClusters};
ghost use Rattle.both_sides.specs.SideLaws.{SidesAreSlack, SidesAreLaterFinishes, SideOrdersAreOrdersOfSlack, SideOrdersAreOrdersOfLaterFinishes};

/// Half of the gap of a key's clusters, rounded up, is the least g at which there is a side order.
pub fn half_gaps_are_least()
    ensures { HalfGapsAreLeast }
{}

/// Where the clusters are free with f later by 2g, the order that is printed at g is a side order there.
pub fn printed_side_orders_are_side_orders()
    ensures { PrintedSideOrdersAreSideOrders }
{}

/// The four records of the pair at 0 of the clusters with f later by 2g are before each other on both sides at g.
pub fn pairs_hold_on_both_sides()
    ensures { PairsHoldOnBothSides }
{}

/// Some read is before its write on both sides at g exactly where, with f later by 2g, some cluster has its f before
/// its write starts.
pub fn early_reads_are_early_clusters()
    ensures { EarlyReadsAreEarlyClusters }
{}

/// To be before another on both sides at g is to precede it at 0 with every slack greater by g.
pub fn sides_are_slack()
    ensures { SidesAreSlack }
{}

/// To be before another on both sides at g is to precede it at 0 with every finish later by 2g.
pub fn sides_are_later_finishes()
    ensures { SidesAreLaterFinishes }
{}

/// The side orders at g of a key are its atomic orders with every slack greater by g: the least g with one is the
/// least further slack that makes the key atomic.
pub fn side_orders_are_orders_of_slack()
    ensures { SideOrdersAreOrdersOfSlack }
{}

/// The side orders at g of a key are its atomic orders with every finish later by 2g.
pub fn side_orders_are_orders_of_later_finishes()
    ensures { SideOrdersAreOrdersOfLaterFinishes }
{}
