//! Whole amounts: the one rounding of every factor, column, charge and true-up, and rounding
//! down. Both take every amount and every divisor above 0.
#![tactic(auto)]

mod rounding;

pub use rounding::{rounded, rounded_down};
