//! By how much the ticks of every operation would have to be wrong, on both sides, for a key to be atomic: a measure
//! after Γ (Golab, Rahman and others 2014), which also moves both ends of operations.
#![tactic(auto)]

mod early;
mod gaps;
mod laws;
mod least;
mod raised;

pub use laws::{
    early_reads_are_early_clusters, half_gaps_are_least, pairs_hold_on_both_sides,
    printed_side_orders_are_side_orders, side_orders_are_orders_of_later_finishes,
    side_orders_are_orders_of_slack, sides_are_later_finishes, sides_are_slack,
};
pub use least::{Shown, Sides, least_sides};

#[cfg(test)]
mod tests;
