//! A run that is carried out by commands.
use crate::records::{EndRecord, Row, Stretch};
use dispatch::{Run, Totals};
use record_log::Log;

mod notes;
mod steps;
mod with_logs;

/// A run, and the row of ticks that goes on. Its user lends two logs, of ends and of stretches, to every step: always the
/// same two, or others from some step on.
#[derive(Drop)]
pub struct Session<'s, R> {
    run: Run<'s, R>,
    row: Option<Row>,
}

/// What a closed session answers.
#[derive(Clone, Copy)]
pub struct Closed {
    /// Whether the last row found its log full.
    // Not a `Result`: the totals are answered in either case.
    pub lost: bool,
    /// The clock at the end, and the tasks with an open job.
    pub totals: Totals,
}

/// A session, and the two logs that all its steps are recorded in.
#[derive(Drop)]
pub struct Recording<'s, 'm, R> {
    session: Session<'s, R>,
    ends: Log<'m, EndRecord>,
    stretches: Log<'m, Stretch>,
}

/// What a closed recording answers.
#[derive(Drop)]
pub struct Report<'m> {
    /// What the closed session answers.
    pub closed: Closed,
    /// The log of ends.
    pub ends: Log<'m, EndRecord>,
    /// The log of stretches, with the last row unless that found it full.
    pub stretches: Log<'m, Stretch>,
}
