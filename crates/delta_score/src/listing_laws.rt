//! What listings of clusters give (after Golab, Hurwitz and Li 2013), as a function whose contract is all that it is for.

ghost use Rattle.delta_score.specs.ListingLaws.{ListingsAreOrders};

/// Where the clusters of a key are listed at d, the operations in the order of the listing, each late read after the next
/// write, are an order at d in which each read returns one of the last two writes.
pub fn listings_are_orders()
    ensures { ListingsAreOrders }
{}
