//! A moment for each operation of an order: the tick at which a picture lets it happen. Moments rise along the order, and
//! each lies between its operation's earliest start and latest finish wherever the order allows it.
#![tactic(auto)]

pub mod examples;
mod laws;
mod rearranged;
mod ticks;

pub use laws::{
    moments_are_one, moments_are_within_times, moments_before_starts_are_forced,
    moments_end_by_finishes, moments_exist, moments_follow_starts, moments_rise,
    orders_extend_precedence, ticks_show_precedence,
};
pub use rearranged::in_order;
pub use ticks::moments;

#[cfg(test)]
mod tests;
