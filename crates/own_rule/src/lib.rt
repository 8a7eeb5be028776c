//! Samples of a customer's own order rules: one that borrows its points and gives ties to the higher number, and one
//! with a const parameter that may not be dropped.
#![tactic(auto)]

mod higher_first;
mod same_point;

pub use higher_first::HigherFirst;
pub use same_point::SamePoint;
