//! The calls on a run.
ghost use Rattle.std.specs.Prelude.{◌≡◌};
ghost use Rattle.dispatch.specs.Runs.{Kept, of_rule, set_tasks, state};
ghost use Rattle.model.specs.Machine.{finish, release, step, tick, wait, wake};

use super::Run;
use model::{Answer, Call, Ended, Refusal, Ticked};
use rules::OrderRule;

// Not a ghost field: that a call leaves set and rule as they are speaks of the run before it, which a type does not see.
impl<'s, R: OrderRule> Run<'s, R> {
    /// Opens a job of a task and answers the clock. Refused, in this order: no task has the number; fewer than T
    /// ticks since its last granted release.
    pub fn release(&mut self, task: u32) -> Result<u32, Refusal>
        ensures answer { result ≡ (release (set_tasks self.old) task (state self.old)).0 }
        ensures state { state self.new
            ≡ (release (set_tasks self.old) task (state self.old)).1 }
        ensures kept { Kept self.old self.new }
    {
        self.board.release(task)
    }

    /// Wakes the waiting job of a task and answers the ticks that it has waited. Refused, in this order: no task has
    /// the number; the task has no waiting job.
    pub fn wake(&mut self, task: u32) -> Result<u16, Refusal>
        ensures answer { result ≡ (wake (set_tasks self.old) task (state self.old)).0 }
        ensures state { state self.new
            ≡ (wake (set_tasks self.old) task (state self.old)).1 }
        ensures kept { Kept self.old self.new }
    {
        self.board.wake(task)
    }

    /// The job with the processor suspends itself; answers its task. Refused, in this order: no job is ready; the job
    /// has waited S ticks.
    pub fn wait(&mut self) -> Result<u32, Refusal>
        ensures answer { result
            ≡ (wait (set_tasks self.old) (R.OrderRule.before (of_rule self.old)) (state self.old)).0 }
        ensures state { state self.new
            ≡ (wait (set_tasks self.old) (R.OrderRule.before (of_rule self.old)) (state self.old)).1 }
        ensures kept { Kept self.old self.new }
    {
        self.board.wait(self.rule)
    }

    /// The job with the processor ends; answers its task, its age and the ticks that it was given. Refused if no job
    /// is ready.
    pub fn finish(&mut self) -> Result<Ended, Refusal>
        ensures answer { result
            ≡ (finish (set_tasks self.old) (R.OrderRule.before (of_rule self.old)) (state self.old)).0 }
        ensures state { state self.new
            ≡ (finish (set_tasks self.old) (R.OrderRule.before (of_rule self.old)) (state self.old)).1 }
        ensures kept { Kept self.old self.new }
    {
        self.board.finish(self.rule)
    }

    /// Time moves on by one tick; answers the task whose job was given the tick or none, whether that job ended, and
    /// the tasks whose jobs became ready by force. Refused if the clock is at its end.
    pub fn tick(&mut self) -> Result<Ticked, Refusal>
        ensures answer { result
            ≡ (tick (set_tasks self.old) (R.OrderRule.before (of_rule self.old)) (state self.old)).0 }
        ensures state { state self.new
            ≡ (tick (set_tasks self.old) (R.OrderRule.before (of_rule self.old)) (state self.old)).1 }
        ensures kept { Kept self.old self.new }
    {
        self.board.tick(self.rule)
    }

    /// Makes a call that is given as a value; the answer is that of the call's own method.
    pub fn call(&mut self, call: Call) -> Result<Answer, Refusal>
        ensures answer { result
            ≡ (step (set_tasks self.old) (R.OrderRule.before (of_rule self.old)) call (state
            self.old)).0 }
        ensures state { state self.new
            ≡ (step (set_tasks self.old) (R.OrderRule.before (of_rule self.old)) call (state
            self.old)).1 }
        ensures kept { Kept self.old self.new }
    {
        // Not a closure: a call is data, which scripts and entries hold.
        match call {
            Call::Release(task) => self.release(task).map(Answer::Released),
            Call::Wait => self.wait().map(Answer::Waits),
            Call::Wake(task) => self.wake(task).map(Answer::Woken),
            Call::Finish => self.finish().map(Answer::Finished),
            Call::Tick => self.tick().map(Answer::Passed),
        }
    }
}
