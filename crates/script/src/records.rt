//! What the logs of a session are records of.

/// How a job came to its end.
#[derive(Clone, Copy, PartialEq, Eq, Debug)]
pub enum Cause {
    /// By a finish.
    Finish,
    /// By a tick that made its count C.
    Count,
}

/// The end of a job.
#[derive(Clone, Copy, PartialEq, Eq, Debug)]
pub struct EndRecord {
    pub task: u32,
    /// The clock of its release.
    pub release: u32,
    /// The clock after the call that ended it.
    pub end: u32,
    /// The ticks that it was given.
    pub given: u16,
    pub cause: Cause,
}

/// One unbroken row of ticks.
#[derive(Clone, Copy, PartialEq, Eq, Debug)]
pub struct Stretch {
    /// The task that the ticks were given to; none if the processor was idle.
    pub task: Option<u32>,
    /// The clock before the first tick.
    pub first: u32,
    /// How many ticks there are.
    pub ticks: u32,
}

/// A row of ticks that goes on.
#[derive(Clone, Copy, PartialEq, Eq, Debug)]
pub struct Row {
    /// The task that the ticks are given to; none if the processor is idle.
    pub task: Option<u32>,
    /// The clock before the first tick.
    pub first: u32,
}

/// Which records of a granted call found their log full.
// Not an enum: one call can lose both.
#[derive(Clone, Copy, PartialEq, Eq, Debug)]
pub struct Lost {
    /// The record of a job's end.
    pub end: bool,
    /// A row of ticks.
    pub row: bool,
}

/// What a granted command of a run asks of its session.
// Not an `Option`: a close is asked for, and nothing is missing.
#[derive(Clone, Copy, PartialEq, Eq, Debug)]
pub enum Turn {
    /// Nothing more: the call was made.
    Made(Lost),
    /// To be closed.
    Closes,
}

/// How many records each log of a script has room for.
pub const RECORDS: usize = 256;

/// What stands in the memory of a log before an end is pushed.
// Not a `Default`: nothing here is an end that one would mean. So with the next one.
pub const NO_END: EndRecord = EndRecord {
    task: 0,
    release: 0,
    end: 0,
    given: 0,
    cause: Cause::Finish,
};

/// What stands in the memory of a log before a stretch is pushed.
pub const NO_STRETCH: Stretch = Stretch {
    task: None,
    first: 0,
    ticks: 0,
};
