//! An accepted set and a rule are checked, a checked pair is started, a run is closed.
use crate::board::Board;
use admission::Accepted;

mod calls;
mod checking;
mod questions;

/// An accepted set and a rule that gives its tasks the points it was admitted with. Both are borrowed, so any number
/// of runs can be started from them.
#[derive_where(Clone, Copy)]
pub struct Checked<'s, R> {
    set: &'s Accepted,
    rule: &'s R,
}

/// A run: the tasks of an accepted set, dispatched tick by tick under a rule.
#[derive(Drop)]
pub struct Run<'s, R> {
    board: Board<'s>,
    rule: &'s R,
}

/// What a closed run answers.
#[derive(Clone, Copy, PartialEq, Eq, Debug)]
pub struct Totals {
    /// The clock at the end.
    pub clock: u32,
    /// The tasks with an open job, bit i for task i.
    pub open: u32,
}
