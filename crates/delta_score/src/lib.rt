//! How stale a key's reads got: the score of a pair of clusters, the least d at which no two clusters are in conflict
//! (Golab, Li and Shah 2011), the orders of operations that an order of clusters gives, and the zone theorem (Gibbons and
//! Korach 1997).
#![tactic(auto)]

mod conflicts;
mod existence_laws;
mod least;
mod listing_laws;
mod order;
mod parts;
mod score;
mod zone_laws;

pub use existence_laws::{least_deltas_exist, operation_orders_exist};
pub use least::{Least, four_at, least_delta, order_at};
pub use listing_laws::listings_are_orders;
pub use order::op_order;
pub use score::pair_score;
pub use zone_laws::{
    clusters_list_writes, matched_keys_are_orderable, orders_exclude_conflicts,
    orders_of_any_exclude_conflicts, pairs_show_four, zone_orders_are_orders,
    zone_orders_of_any_are_orders, zone_theorem, zone_theorem_of_any,
};

#[cfg(test)]
mod tests;
