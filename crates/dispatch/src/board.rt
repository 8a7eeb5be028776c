//! The board: an accepted set, the clock, 32 job records, and the words of ready and of waiting tasks.
ghost use Rattle.std.specs.Prelude.{◌≡◌, ◌≤◌, length};
ghost use Rattle.admission.specs.Views.{tasks_of};
ghost use Rattle.dispatch.specs.Sound.{AllInBounds, WordOf, state_at};
ghost use Rattle.model.specs.Figures.{most_tasks};
ghost use Rattle.model.specs.Machine.{last_clock};
ghost use Rattle.model.specs.State.{is_ready, is_waiting};

use admission::Accepted;
use model::Job;
use tasks::CAPACITY;

mod calls;
mod changes;
mod processor;
mod questions;
mod tick;

/// The clock at which a tick is refused.
pub const LAST_CLOCK: u32 = 4_000_000_000;

/// The tasks of a run, and what it keeps of their jobs.
// Not an `ArrayVec` of records: there is one for each number that a word can name, so a bit and its record go together.
#[derive(Clone, Copy)]
pub(crate) struct Board<'s> {
    set: &'s Accepted,
    clock: u32,
    jobs: [Option<Job>; CAPACITY],
    ready: u32,
    waiting: u32,
    ghost room: { length jobs ≡ most_tasks },
    ghost in_time: { clock ≤ last_clock },
    ghost bounded: { AllInBounds (tasks_of set.now) (state_at clock jobs) },
    ghost ready_tasks: { WordOf is_ready (state_at clock jobs) ready },
    ghost waiting_tasks: { WordOf is_waiting (state_at clock jobs) waiting },
}
