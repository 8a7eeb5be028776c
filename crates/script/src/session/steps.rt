//! The steps of a session.
ghost use Rattle.std.specs.Prelude.{◌≡◌, None};
ghost use Rattle.dispatch.specs.Runs.{Kept, of_rule, of_set, set_tasks, state};
ghost use Rattle.record_log.specs.Records.{records};
ghost use Rattle.model.specs.Machine.{totals};
ghost use Rattle.model.specs.State.{start};
ghost use Rattle.script.specs.Kept.{SameMemory};
ghost use Rattle.script.specs.Views.{books, call_in, command_in, settled_in};

use super::notes::{ended_by, note, turned};
use super::{Closed, Session};
use crate::command::Command;
use crate::records::{EndRecord, Lost, Stretch, Turn};
use dispatch::Checked;
use model::{Call, Refusal};
use record_log::Log;
use rules::OrderRule;

// Not a ghost field: that a step keeps set, rule and memory speaks of the session before it.
impl<'s, R: OrderRule> Session<'s, R> {
    /// Starts a run of a set and a rule that were checked.
    pub fn start(checked: Checked<'s, R>) -> Session<'s, R>
        ensures set { of_set result.run ≡ checked.entry.set.now }
        ensures rule { of_rule result.run ≡ checked.entry.rule.now }
        ensures state { state result.run ≡ start }
        ensures row { result.row ≡ None }
    {
        Session {
            run: checked.start(),
            row: None,
        }
    }

    // Makes a call on the run, with its records: the end of a job first, then a row that stops.
    fn call(
        &mut self,
        call: Call,
        ends: &mut Log<'_, EndRecord>,
        stretches: &mut Log<'_, Stretch>,
    ) -> Result<Turn, Refusal>
        ensures answer { result
            ≡ (call_in (R.OrderRule.before (of_rule self.old.run)) self.old ends.old stretches.old call).0 }
        ensures state { books self.new ends.new stretches.new
            ≡ (call_in (R.OrderRule.before (of_rule self.old.run)) self.old ends.old stretches.old call).1 }
        ensures kept { Kept self.old.run self.new.run }
        ensures ends { SameMemory ends.old ends.new }
        ensures stretches { SameMemory stretches.old stretches.new }
    {
        let Session { run, row } = self;
        let clock = run.clock();
        let answer = run.call(call)?;
        let end = note(ends, ended_by(run, answer));
        let (stopped, going) = turned(clock, answer, *row);
        *row = going;
        let row = note(stretches, stopped);
        Ok(Turn::Made(Lost { end, row }))
    }

    /// Carries out a command in a run: makes a call and records what it brings, or says that the session is to be
    /// closed. Refused: what belongs outside of a run, and what the call refuses; then all stands as it stood.
    pub fn step(
        &mut self,
        command: Command,
        ends: &mut Log<'_, EndRecord>,
        stretches: &mut Log<'_, Stretch>,
    ) -> Result<Turn, Refusal>
        ensures answer { result
            ≡ (command_in (R.OrderRule.before (of_rule self.old.run)) self.old ends.old stretches.old command).0 }
        ensures state { books self.new ends.new stretches.new
            ≡ (command_in (R.OrderRule.before (of_rule self.old.run)) self.old ends.old stretches.old command).1 }
        ensures kept { Kept self.old.run self.new.run }
        ensures ends { SameMemory ends.old ends.new }
        ensures stretches { SameMemory stretches.old stretches.new }
    {
        // Not a closure: a command is data, read from a script.
        match command {
            Command::Call(call) => self.call(call, ends, stretches),
            Command::Close => Ok(Turn::Closes),
            Command::Task(_) | Command::Rule(_) | Command::Start => Err(Refusal::OutOfPlace),
        }
    }

    /// Closes the run, and pushes the row that goes on.
    pub fn close(self, stretches: &mut Log<'_, Stretch>) -> Closed
        ensures lost { result.lost ≡ (settled_in self.entry stretches.old).0 }
        ensures stretches { records stretches.new ≡ (settled_in self.entry stretches.old).1 }
        ensures clock { result.totals.clock
            ≡ (totals (set_tasks self.entry.run) (state self.entry.run)).0 }
        ensures open_tasks { result.totals.«open»
            ≡ (totals (set_tasks self.entry.run) (state self.entry.run)).1 }
        ensures kept { SameMemory stretches.old stretches.new }
    {
        let Session { run, row } = self;
        let clock = run.clock();
        Closed {
            lost: note(stretches, row.map(|row| row.stretch(clock))),
            totals: run.close(),
        }
    }
}
