//! The calls on a board, for the job that has the processor or for a task that is named.
ghost use Rattle.std.specs.Prelude.{◌≡◌};
ghost use Rattle.dispatch.specs.Boards.{set_of, state_of, tasks_on};
ghost use Rattle.model.specs.Machine.{finish, release, too_soon, wait, wake};

use super::Board;
use crate::event::Event;
use model::{Ended, Job, Phase, Refusal};
use rules::OrderRule;

// Not a ghost field: that a call leaves the set as it is speaks of the board before it.
impl<'s> Board<'s> {
    // Whether fewer than a period of ticks have passed since the latest release.
    fn released_within(&self, task: u32, period: u16) -> bool
        ensures value { result
            ≡ too_soon period (state_of self.now).clock ((state_of self.now).latest task) }
    {
        let clock = self.clock;
        self.latest(task).is_some_and(|job| clock.saturating_sub(job.release) < u32::from(period))
    }

    pub(crate) fn release(&mut self, task: u32) -> Result<u32, Refusal>
        ensures answer { result ≡ (release (tasks_on self.old) task (state_of self.old)).0 }
        ensures state { state_of self.new
            ≡ (release (tasks_on self.old) task (state_of self.old)).1 }
        ensures set { set_of self.new ≡ set_of self.old }
    {
        let row = self.set.get(task)?;
        if self.released_within(task, row.figures.period) {
            return Err(Refusal::ReleasedTooSoon);
        }
        let release = self.clock;
        let job = Job {
            release,
            phase: Phase::Ready,
            given: 0,
            waited: 0,
        };
        self.put(task, job);
        Ok(release)
    }

    pub(crate) fn wake(&mut self, task: u32) -> Result<u16, Refusal>
        ensures answer { result ≡ (wake (tasks_on self.old) task (state_of self.old)).0 }
        ensures state { state_of self.new
            ≡ (wake (tasks_on self.old) task (state_of self.old)).1 }
        ensures set { set_of self.new ≡ set_of self.old }
    {
        self.set.get(task)?;
        let job = self.job(task);
        if job.phase != Phase::Waiting {
            return Err(Refusal::NotWaiting);
        }
        self.on(task, Event::Wake);
        Ok(job.waited)
    }

    pub(crate) fn wait<R: OrderRule>(&mut self, rule: &R) -> Result<u32, Refusal>
        ensures answer { result
            ≡ (wait (tasks_on self.old) (R.OrderRule.before rule.now) (state_of self.old)).0 }
        ensures state { state_of self.new
            ≡ (wait (tasks_on self.old) (R.OrderRule.before rule.now) (state_of self.old)).1 }
        ensures set { set_of self.new ≡ set_of self.old }
    {
        let task = self.processor(rule).ok_or(Refusal::NoReadyJob)?;
        if self.job(task).waited == self.figures(task).suspension {
            return Err(Refusal::SuspensionSpent);
        }
        self.on(task, Event::Suspend);
        Ok(task)
    }

    pub(crate) fn finish<R: OrderRule>(&mut self, rule: &R) -> Result<Ended, Refusal>
        ensures answer { result
            ≡ (finish (tasks_on self.old) (R.OrderRule.before rule.now) (state_of self.old)).0 }
        ensures state { state_of self.new
            ≡ (finish (tasks_on self.old) (R.OrderRule.before rule.now) (state_of self.old)).1 }
        ensures set { set_of self.new ≡ set_of self.old }
    {
        let task = self.processor(rule).ok_or(Refusal::NoReadyJob)?;
        let job = self.on(task, Event::Finish);
        Ok(Ended {
            task,
            age: self.clock.saturating_sub(job.release),
            given: job.given,
        })
    }
}
