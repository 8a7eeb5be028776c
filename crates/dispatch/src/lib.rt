//! The dispatcher: runs that hold every task to the figures it was admitted with.
#![tactic(auto)]

mod board;
mod event;
mod holder;
mod run;

pub use board::LAST_CLOCK;
pub use holder::{Entry, hold};
pub use run::{Checked, Run, Totals};
