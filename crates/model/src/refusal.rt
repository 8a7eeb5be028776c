//! Why a call declines.
ghost use Rattle.std.specs.Prelude.{◌≡◌, Some};
ghost use Rattle.model.specs.Refusals.{number, reason, text};

use std::error::Error;
use std::fmt;

/// Everything that the library refuses, with the number that scripts and C hosts see.
#[derive(Clone, Copy, PartialEq, Eq, Debug)]
pub enum Refusal {
    TableFull = 1,
    NoExecution = 2,
    DeadlineOutsidePeriod = 3,
    NoWarrant = 4,
    OtherPoints = 5,
    NoSuchTask = 6,
    ReleasedTooSoon = 7,
    NoReadyJob = 8,
    SuspensionSpent = 9,
    NotWaiting = 10,
    ClockAtEnd = 11,
    LogFull = 12,
    UnknownCommand = 13,
    OperandsCutOff = 14,
    RuleOutOfRange = 15,
    OutOfPlace = 16,
    WrongLength = 17,
}

impl Refusal {
    /// The number of this refusal, from 1 to 17.
    // Not `From<Refusal> for u8`: at a call `refusal.number()` says what the byte is.
    pub fn number(self) -> u8
        ensures value { result ≡ number self }
    {
        self as u8
    }

    /// What is wrong, in a few words.
    pub fn reason(self) -> &'static str
        ensures value { result.now ≡ reason self }
    {
        match self {
            Refusal::TableFull => "the table has 32 tasks",
            Refusal::NoExecution => "C is 0",
            Refusal::DeadlineOutsidePeriod => "D is 0 or above T",
            Refusal::NoWarrant => "no bounds hold",
            Refusal::OtherPoints => "the rule gives other points",
            Refusal::NoSuchTask => "no task has this number",
            Refusal::ReleasedTooSoon => "fewer than T ticks since the last release",
            Refusal::NoReadyJob => "no job is ready",
            Refusal::SuspensionSpent => "the job has waited S ticks",
            Refusal::NotWaiting => "the task has no waiting job",
            Refusal::ClockAtEnd => "the clock is at its end",
            Refusal::LogFull => "the log is full",
            Refusal::UnknownCommand => "unknown command",
            Refusal::OperandsCutOff => "operands are cut off",
            Refusal::RuleOutOfRange => "no such kind or weight of rule",
            Refusal::OutOfPlace => "the command is out of place",
            Refusal::WrongLength => "a buffer has the wrong length",
        }
    }
}

impl fmt::Display for Refusal {
    ghost output = { λ r. Some (text r) };

    fn fmt<W: fmt::Write>(&self, f: &mut fmt::Formatter<W>) -> fmt::Result {
        let number = self.number();
        let reason = self.reason();
        write!(f, "refused {number}: {reason}")
    }
}

impl Error for Refusal {}
