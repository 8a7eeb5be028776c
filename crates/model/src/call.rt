//! The calls on a run, and what they answer.

/// A call on a run.
#[derive(Clone, Copy, PartialEq, Eq, Debug)]
pub enum Call {
    /// Opens a job of a task.
    Release(u32),
    /// The job with the processor suspends itself.
    Wait,
    /// The waiting job of a task becomes ready.
    Wake(u32),
    /// The job with the processor ends.
    Finish,
    /// Time moves on by one tick.
    Tick,
}

/// What a finish answers about the job that it ends.
#[derive(Clone, Copy, PartialEq, Eq, Debug)]
pub struct Ended {
    pub task: u32,
    /// The ticks since its release.
    pub age: u32,
    /// The ticks that it was given.
    pub given: u16,
}

/// What a tick answers.
#[derive(Clone, Copy, PartialEq, Eq, Debug)]
pub struct Ticked {
    /// The task whose job was given the tick; none if the processor was idle.
    pub ran: Option<u32>,
    /// Whether that job ended.
    // Not an `Option` round the task and this: a tick answers three things side by side, as scripts and users name them.
    pub ended: bool,
    /// The tasks whose waiting jobs became ready by force, bit i for task i.
    pub forced: u32,
}

/// What a granted call answers.
#[derive(Clone, Copy, PartialEq, Eq, Debug)]
pub enum Answer {
    /// A release: the clock.
    Released(u32),
    /// A wait: the task whose job waits.
    Waits(u32),
    /// A wake: the ticks that the job has waited.
    Woken(u16),
    /// A finish: the job that it ends.
    Finished(Ended),
    /// A tick: what it was given to and whom it forced.
    Passed(Ticked),
}
