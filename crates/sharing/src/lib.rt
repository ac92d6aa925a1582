//! Sharing an amount over rows by weight, so that no cent is lost.
#![tactic(auto)]

mod amount;
mod counting;
mod fault;
mod keeping;
pub mod laws;
mod rows;
mod sharing;

pub use amount::{Amount, LARGEST_AMOUNT};
pub use fault::SharingFault;
pub use keeping::{Keeping, Plain};
pub use rows::{LARGEST_WEIGHT_SUM, Receiving, Weighted, weigh};
pub use sharing::share;

#[cfg(test)]
mod tests;
