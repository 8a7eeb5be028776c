//! Questions on a run, and its close.
ghost use Rattle.std.specs.Prelude.{◌≡◌};
ghost use Rattle.admission.specs.Views.{bounds_of};
ghost use Rattle.dispatch.specs.Runs.{of_set, set_tasks, state};
ghost use Rattle.model.specs.Machine.{bound_of, latest_job, open_word, ready_word};

use super::{Run, Totals};
use model::{Job, Refusal};

impl<'s, R> Run<'s, R> {
    /// The clock.
    pub fn clock(&self) -> u32
        ensures value { result ≡ (state self.now).clock }
    {
        self.board.clock()
    }

    /// The tasks whose job is ready, bit i for task i.
    pub fn ready(&self) -> u32
        ensures value { result ≡ ready_word (set_tasks self.now) (state self.now) }
    {
        self.board.ready()
    }

    /// The bound of a task. Refused for a number that no task has.
    pub fn bound(&self, task: u32) -> Result<u16, Refusal>
        ensures answer { result ≡ bound_of (bounds_of (of_set self.now)) task }
    {
        self.board.set().get(task).map(|row| row.bound)
    }

    /// The latest job of a task, none if it was never released; a closed job keeps its counts. Refused for a number
    /// that no task has.
    pub fn latest(&self, task: u32) -> Result<Option<Job>, Refusal>
        ensures answer { result ≡ latest_job (set_tasks self.now) (state self.now) task }
    {
        self.board.set().get(task)?;
        Ok(self.board.latest(task))
    }

    /// Gives up the run, and answers the clock and the tasks with an open job.
    pub fn close(self) -> Totals
        ensures clock { result.clock ≡ (state self.entry).clock }
        ensures open { result.open ≡ open_word (set_tasks self.entry) (state self.entry) }
    {
        Totals {
            clock: self.board.clock(),
            open: self.board.open_word(),
        }
    }
}
