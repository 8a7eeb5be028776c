//! Jobs, as the order rules and the dispatcher know them.

/// A job, known by its task and the clock of its release.
#[derive(Clone, Copy, PartialEq, Eq, Debug)]
pub struct JobId {
    pub task: u32,
    pub release: u32,
}

/// Where a job stands: it is open while it is ready or waiting.
#[derive(Clone, Copy, PartialEq, Eq, Debug, Default)]
pub enum Phase {
    /// The job has ended.
    #[default]
    Closed,
    /// The job asks for the processor.
    Ready,
    /// The job has suspended itself.
    Waiting,
}

/// The latest job of a task. The default is closed, and stands for the job of a task that was never released.
#[derive(Clone, Copy, PartialEq, Eq, Debug, Default)]
pub struct Job {
    /// The clock of its release.
    pub release: u32,
    pub phase: Phase,
    /// The ticks that it was given.
    pub given: u16,
    /// The ticks that it has waited.
    pub waited: u16,
}
