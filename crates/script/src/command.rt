//! The commands of a script.
use model::{Call, Figures};
use rules::Choice;

/// A command with its operands.
#[derive(Clone, Copy, PartialEq, Eq, Debug)]
pub enum Command {
    /// Adds a task to the table.
    Task(Figures),
    /// Chooses the rule of the next start.
    Rule(Choice),
    /// Tests the table and starts a run.
    Start,
    /// A call on the run.
    Call(Call),
    /// Closes the run, and with it the script.
    Close,
}
