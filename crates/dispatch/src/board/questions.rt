//! Questions on a board.
ghost use Rattle.std.specs.Prelude.{◌≡◌, ◌<◌, length};
ghost use Rattle.dispatch.specs.Boards.{figures_on, job_on, set_of, state_of, tasks_on};
ghost use Rattle.model.specs.Machine.{open_word, ready_word};

use super::Board;
use admission::Accepted;
use model::{Figures, Job};

impl<'s> Board<'s> {
    /// The set whose tasks it dispatches.
    pub(crate) fn set(&self) -> &'s Accepted
        ensures value { result.now ≡ set_of self.now }
    {
        self.set
    }

    /// The figures of a task.
    pub(crate) fn figures(&self, task: u32) -> Figures
        requires within { task < length (tasks_on self.now) }
        ensures value { result ≡ figures_on self.now task }
    {
        self.set.as_slice()[task as usize].figures
    }

    /// The latest job of a task, none if it was never released.
    pub(crate) fn latest(&self, task: u32) -> Option<Job>
        ensures value { result ≡ (state_of self.now).latest task }
    {
        self.jobs.get(task as usize).copied().flatten()
    }

    /// The latest job of a task; a closed one for a task that was never released.
    pub(crate) fn job(&self, task: u32) -> Job
        ensures value { result ≡ job_on self.now task }
    {
        self.latest(task).unwrap_or_default()
    }

    pub(crate) fn clock(&self) -> u32
        ensures value { result ≡ (state_of self.now).clock }
    {
        self.clock
    }

    /// The word of the ready tasks.
    pub(crate) fn ready(&self) -> u32
        ensures value { result ≡ ready_word (tasks_on self.now) (state_of self.now) }
    {
        self.ready
    }

    /// The word of the tasks with an open job.
    pub(crate) fn open_word(&self) -> u32
        ensures value { result ≡ open_word (tasks_on self.now) (state_of self.now) }
    {
        words::union(self.ready, self.waiting)
    }
}
