//! Which job has the processor.
ghost use Rattle.std.specs.Prelude.{◌≡◌};
ghost use Rattle.dispatch.specs.Boards.{state_of, tasks_on};
ghost use Rattle.dispatch.specs.Sound.{Chosen};
ghost use Rattle.model.specs.Processor.{processor};

use super::Board;
use model::JobId;
use rules::OrderRule;

impl<'s> Board<'s> {
    /// The task whose job has the processor: of the ready jobs the one that goes before all others.
    pub(crate) fn processor<R: OrderRule>(&self, rule: &R) -> Option<u32>
        ensures value { result
            ≡ processor (tasks_on self.now) (R.OrderRule.before rule.now) (state_of self.now) }
        ensures chosen { Chosen (tasks_on self.now) (state_of self.now) result }
    {
        let mut best: Option<JobId> = None;
        for task in words::bits(self.ready) {
            let job = JobId {
                task,
                release: self.job(task).release,
            };
            if best.is_none_or(|first| rule.goes_before(job, first)) {
                best = Some(job);
            }
        }
        best.map(|first| first.task)
    }
}
