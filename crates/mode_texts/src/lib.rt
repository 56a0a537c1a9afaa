//! What `two`, `sides` and `live` write of a history: lines for each key, and a last line of totals.
#![tactic(auto)]

mod changes;
mod keys;
mod live;
mod sides;
mod totals;
mod two;

pub use live::{Change, LiveVerdict, live_text};
pub use sides::{SidesVerdict, sides_text};
pub use two::{LeastDelta, TwoVerdict, two_text};

#[cfg(test)]
mod tests;
