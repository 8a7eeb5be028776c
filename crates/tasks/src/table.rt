//! The open table.
ghost use Rattle.std.specs.Prelude.{◌≡◌, [], length};
ghost use Rattle.model.specs.Figures.{Tasks};

use arrayvec::ArrayVec;
use model::{Figures, Refusal};

/// The most tasks of a table: a word of 32 bits names them.
pub const CAPACITY: usize = 32;

/// Tasks that are entered one by one, numbered from 0. The figures of every task in a table fit: C is at least 1, and D
/// is from 1 to T.
#[derive(Drop)]
pub struct Table {
    tasks: ArrayVec<Figures, CAPACITY>,
    ghost fit: { Tasks tasks.items },
}

impl Table {
    ghost use Rattle.model.specs.Tables.{add, figures_of};
    ghost use Rattle.tasks.specs.Listed.{listed};

    /// A table with no task.
    pub fn new() -> Table
        ensures value { listed result ≡ [] }
    {
        Table {
            tasks: ArrayVec::new(),
        }
    }

    /// Adds a task at the end and answers its number. Refused, in this order: the table is full, C is 0, D is 0 or
    /// above T; then the table stands as it stood.
    pub fn add(&mut self, figures: Figures) -> Result<u32, Refusal>
        ensures answer { result ≡ (add (listed self.old) figures).0 }
        ensures state { listed self.new ≡ (add (listed self.old) figures).1 }
    {
        if self.tasks.is_full() {
            return Err(Refusal::TableFull);
        }
        if figures.execution == 0 {
            return Err(Refusal::NoExecution);
        }
        if figures.deadline == 0 || figures.deadline > figures.period {
            return Err(Refusal::DeadlineOutsidePeriod);
        }
        let number = self.tasks.len() as u32;
        self.tasks.push(figures);
        Ok(number)
    }

    /// How many tasks the table has.
    pub fn count(&self) -> usize
        ensures value { result ≡ length (listed self.now) }
    {
        self.tasks.len()
    }

    /// The figures of a task. Refused for a number that no task has.
    pub fn figures(&self, task: u32) -> Result<Figures, Refusal>
        ensures answer { result ≡ figures_of (listed self.now) task }
    {
        let found = self.as_slice().get(task as usize);
        found.copied().ok_or(Refusal::NoSuchTask)
    }

    /// The tasks in their order.
    pub fn as_slice(&self) -> &[Figures]
        ensures value { result.now ≡ listed self.now }
    {
        self.tasks.as_slice()
    }
}
