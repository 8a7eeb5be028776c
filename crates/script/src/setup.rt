//! What a script enters before a run.
ghost use Rattle.std.specs.Prelude.{◌≡◌};

use rules::Choice;
use tasks::Table;

mod entering;

/// The open table, and the rule that was chosen last.
#[derive(Drop)]
pub struct Setup {
    table: Table,
    choice: Choice,
}

/// What a granted command asks for outside of a run.
#[derive(Clone, Copy, PartialEq, Eq, Debug)]
pub enum Entered {
    /// Nothing more.
    Stored,
    /// A test of the table, and a run.
    Starts,
}

impl Setup {
    /// The table.
    pub fn table(&self) -> &Table
        ensures value { result.now ≡ self.now.table }
    {
        &self.table
    }

    /// The choice of rule.
    pub fn choice(&self) -> Choice
        ensures value { result ≡ self.now.choice }
    {
        self.choice
    }
}
