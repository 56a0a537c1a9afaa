//! The zone theorem (Gibbons and Korach 1997) in both directions, and the laws that it rests on, as functions whose
//! contracts are all that they are for.

ghost use Rattle.delta_score.specs.ZoneLaws.{PairsShowFour, OrdersExcludeConflicts, ZoneOrdersAreOrders, ClustersListWrites, ZoneTheorem};
ghost use Rattle.delta_score.specs.ZoneLaws.{MatchedKeysAreOrderable, OrdersOfAnyExcludeConflicts, ZoneOrdersOfAnyAreOrders, ZoneTheoremOfAny};

/// The four records of the pair of the zone order at d hold at d.
pub fn pairs_show_four()
    ensures { PairsShowFour }
{}

/// Where there is an order at d in which each read returns the last write, no read is early and no two clusters
/// conflict at d.
pub fn orders_exclude_conflicts()
    ensures { OrdersExcludeConflicts }
{}

/// Where no operation of a cluster precedes one of an earlier cluster at d, the operations in the order of the clusters
/// are an order at d in which each read returns the last write.
pub fn zone_orders_are_orders()
    ensures { ZoneOrdersAreOrders }
{}

/// The clusters of a key, in any order, list each of its writes once, as [`op_order`](crate::op_order) takes them.
pub fn clusters_list_writes()
    ensures { ClustersListWrites }
{}

/// The zone theorem of Gibbons and Korach (1997), at d: there is an order in which each read returns the last write
/// exactly where no read is early and no two clusters conflict.
pub fn zone_theorem()
    ensures { ZoneTheorem }
{}

/// The operations of a valid key that is neither duplicate nor unmatched have all that the zone theorem asks of
/// operations.
pub fn matched_keys_are_orderable()
    ensures { MatchedKeysAreOrderable }
{}

/// [`orders_exclude_conflicts`] for any operations that name their writes.
pub fn orders_of_any_exclude_conflicts()
    ensures { OrdersOfAnyExcludeConflicts }
{}

/// [`zone_orders_are_orders`] for any operations whose records differ, that name their writes, and of which none
/// finishes before it starts.
pub fn zone_orders_of_any_are_orders()
    ensures { ZoneOrdersOfAnyAreOrders }
{}

/// [`zone_theorem`] for any operations whose records differ, that name their writes, and of which none finishes before
/// it starts.
pub fn zone_theorem_of_any()
    ensures { ZoneTheoremOfAny }
{}
