//! Checks what shows a verdict, by precedence and orders of operations alone.
#![tactic(auto)]

mod faults;
mod four;
mod keys;
mod laws;
mod lists;
mod orders;
mod records;
mod refutations;

pub use four::check_four;
pub use keys::{check_all, check_key};
pub use laws::{
    certificates_are_found_good, orders_are_found_good, refutations_are_found_good,
    verdicts_are_found_good,
};
pub use orders::check_order;
pub use refutations::{check_refutation, check_refutation_at};

#[cfg(test)]
mod tests;

/// What a check of one key finds.
#[derive(Clone, Copy, Debug, PartialEq, Eq)]
pub enum Found {
    /// No rule is broken.
    Good,
    /// The first rule that is broken, and the record that it names.
    Bad { rule: u8, rec: u32 },
}

/// What a check of all keys finds.
#[derive(Clone, Copy, Debug, PartialEq, Eq)]
pub enum Checked {
    /// Each verdict is shown.
    Good,
    /// The first key whose verdict isn't, counted from 1, with the first rule that is broken and the record that it
    /// names.
    Bad { key: u32, rule: u8, rec: u32 },
}
