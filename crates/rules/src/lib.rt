//! Order rules: which of two jobs goes first. The trait, the three rules and the layers over any rule.
#![tactic(auto)]

mod bottom;
mod choice;
mod points;
mod rule;
mod weighted;

pub use bottom::{Bottom, Kind};
pub use choice::Choice;
pub use points::{LARGEST, SMALLEST};
pub use rule::OrderRule;
pub use weighted::{Figure, HEAVIEST, Weighted};
