//! A tick.
ghost use Rattle.std.specs.Prelude.{◌≡◌, ℕ, ◌<◌, true, false, ◌&&◌, length};
ghost use Rattle.dispatch.specs.Boards.{figures_on, job_on, set_of, state_of, tasks_on};
ghost use Rattle.dispatch.specs.Sound.{Chosen};
ghost use Rattle.dispatch.specs.Ticks.{delayed_state, ends, supplied_state};
ghost use Rattle.model.specs.Machine.{counted, overdue, tick, ticked};
ghost use Rattle.model.specs.State.{is_waiting, put as placed};
ghost use Rattle.words.specs.Bits.{has};

use super::{Board, LAST_CLOCK};
use crate::event::Event;
use model::{Phase, Refusal, Ticked};
use rules::OrderRule;

impl<'s> Board<'s> {
    // A waiting job has waited one tick more; answers whether it became ready by force.
    fn delay(&mut self, task: u32) -> bool
        requires within { task < length (tasks_on self.old) }
        requires waits { is_waiting (job_on self.old task).phase ≡ true }
        ensures answer { result
            ≡ overdue (figures_on self.old task) (counted false (job_on self.old task)) }
        ensures state { state_of self.new
            ≡ placed task (ticked (figures_on self.old task) false (job_on self.old task)) (state_of self.old) }
        ensures set { set_of self.new ≡ set_of self.old }
    {
        self.on(task, Event::Tick).phase == Phase::Ready
    }

    // The job with the processor, if any, is given a tick; answers whether it ended.
    fn supply(&mut self, chosen: Option<u32>) -> bool
        requires chosen { Chosen (tasks_on self.old) (state_of self.old) chosen }
        ensures answer { result ≡ ends (tasks_on self.old) chosen (state_of self.old) }
        ensures state { state_of self.new
            ≡ supplied_state (tasks_on self.old) chosen (state_of self.old) }
        ensures set { set_of self.new ≡ set_of self.old }
    {
        // Not `is_some_and`: of what its closure changes in the board the proof learns nothing.
        match chosen {
            Some(task) => self.on(task, Event::Tick).phase != Phase::Ready,
            None => false,
        }
    }

    // Every job of the word has waited one tick more; answers the word of those that became ready by force.
    fn delay_all(&mut self, waiting: u32) -> u32
        requires waits { (i : ℕ) → has waiting i ≡ true → is_waiting (job_on self.old i).phase ≡ true }
        ensures answer { (i : ℕ) → has result i
            ≡ (has waiting i && overdue (figures_on self.old i) (counted false (job_on self.old i))) }
        ensures state { state_of self.new
            ≡ delayed_state (tasks_on self.old) (has waiting) (state_of self.old) }
        ensures set { set_of self.new ≡ set_of self.old }
    {
        let mut forced = 0;
        for task in words::bits(waiting) {
            if self.delay(task) {
                forced = words::with(forced, task);
            }
        }
        forced
    }

    pub(crate) fn tick<R: OrderRule>(&mut self, rule: &R) -> Result<Ticked, Refusal>
        ensures answer { result
            ≡ (tick (tasks_on self.old) (R.OrderRule.before rule.now) (state_of self.old)).0 }
        ensures state { state_of self.new
            ≡ (tick (tasks_on self.old) (R.OrderRule.before rule.now) (state_of self.old)).1 }
        ensures set { set_of self.new ≡ set_of self.old }
    {
        if self.clock == LAST_CLOCK {
            return Err(Refusal::ClockAtEnd);
        }
        let waiting = self.waiting;
        let ran = self.processor(rule);
        let ended = self.supply(ran);
        let forced = self.delay_all(waiting);
        self.clock += 1;
        Ok(Ticked { ran, ended, forced })
    }
}
