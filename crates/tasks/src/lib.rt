//! The open table of tasks, before it is tested.
#![tactic(auto)]

mod table;

pub use table::{CAPACITY, Table};
