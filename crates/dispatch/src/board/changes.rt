//! Changing one record of the board.
ghost use Rattle.std.specs.Prelude.{◌≡◌, ℕ, ◌<◌, true, length, if◌then◌else◌, Some, nat_eq};
ghost use Rattle.dispatch.specs.Boards.{figures_on, job_on, set_of, state_of, tasks_on};
ghost use Rattle.dispatch.specs.Events.{moved};
ghost use Rattle.dispatch.specs.Sound.{in_bounds};
ghost use Rattle.model.specs.State.{put as placed, start};
ghost use Rattle.words.specs.Bits.{has};

use super::Board;
use crate::event::{Event, after};
use admission::Accepted;
use model::{Job, Phase};
use tasks::CAPACITY;

// The word in which bit k is as told.
fn told(word: u32, k: u32, on: bool) -> u32
    requires within { k < 32 }
    ensures bits { (j : ℕ) → has result j ≡ (if nat_eq j k then on else has word j) }
{
    if on {
        words::with(word, k)
    } else {
        words::without(word, k)
    }
}

impl<'s> Board<'s> {
    /// The board of a new run.
    pub(crate) fn new(set: &'s Accepted) -> Board<'s>
        ensures state { state_of result ≡ start }
        ensures set { set_of result ≡ set.now }
    {
        Board {
            set,
            clock: 0,
            jobs: [None; CAPACITY],
            ready: 0,
            waiting: 0,
        }
    }

    /// Makes a job the latest of its task.
    // Not a type for the numbers of tasks: whether a number is one hangs on the board.
    pub(crate) fn put(&mut self, task: u32, job: Job)
        requires within { task < length (tasks_on self.old) }
        requires bounded { in_bounds (figures_on self.old task) self.old.clock (Some job) ≡ true }
        ensures state { state_of self.new ≡ placed task job (state_of self.old) }
        ensures set { set_of self.new ≡ set_of self.old }
    {
        self.jobs[task as usize] = Some(job);
        self.ready = told(self.ready, task, job.phase == Phase::Ready);
        self.waiting = told(self.waiting, task, job.phase == Phase::Waiting);
    }

    /// Something befalls the job of a task; answers what becomes of the job.
    #[inline]
    pub(crate) fn on(&mut self, task: u32, event: Event) -> Job
        requires within { task < length (tasks_on self.old) }
        requires bounded { in_bounds (figures_on self.old task) self.old.clock
            (Some (moved (figures_on self.old task) event (job_on self.old task))) ≡ true }
        ensures value { result ≡ moved (figures_on self.old task) event (job_on self.old task) }
        ensures state { state_of self.new ≡ placed task result (state_of self.old) }
        ensures set { set_of self.new ≡ set_of self.old }
    {
        let job = after(&self.job(task), event, &self.figures(task));
        self.put(task, job);
        job
    }
}
