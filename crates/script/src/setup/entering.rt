//! The commands outside of a run.
ghost use Rattle.std.specs.Prelude.{◌≡◌};
ghost use Rattle.script.specs.Setups.{empty, entered};
ghost use Rattle.script.specs.Views.{desk};

use super::{Entered, Setup};
use crate::command::Command;
use model::Refusal;
use rules::Choice;
use tasks::Table;

impl Setup {
    /// No task, and the deadline rule with weights 0.
    pub fn new() -> Setup
        ensures value { desk result ≡ empty }
    {
        Setup {
            table: Table::new(),
            choice: Choice::default(),
        }
    }

    /// Carries out a command outside of a run: adds a task, keeps a choice of rule, or says that a run is to be
    /// started. Refused: a call on a run and a close, which are out of place, and a task that the table refuses; then
    /// all stands as it stood.
    pub fn step(&mut self, command: Command) -> Result<Entered, Refusal>
        ensures answer { result ≡ (entered command (desk self.old)).0 }
        ensures state { desk self.new ≡ (entered command (desk self.old)).1 }
    {
        // Not a closure: a command is data, read from a script.
        match command {
            Command::Task(figures) => self.table.add(figures).map(|_| Entered::Stored),
            Command::Rule(choice) => {
                self.choice = choice;
                Ok(Entered::Stored)
            }
            Command::Start => Ok(Entered::Starts),
            Command::Call(_) | Command::Close => Err(Refusal::OutOfPlace),
        }
    }
}
