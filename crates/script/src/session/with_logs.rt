//! A session with its logs.
ghost use Rattle.std.specs.Prelude.{◌≡◌, None};
ghost use Rattle.dispatch.specs.Runs.{of_rule, of_set, set_tasks, state};
ghost use Rattle.record_log.specs.Records.{records};
ghost use Rattle.model.specs.Machine.{totals};
ghost use Rattle.model.specs.State.{start};
ghost use Rattle.script.specs.Kept.{Kept, SameMemory};
ghost use Rattle.script.specs.Views.{books_in, command_in, settled_in};

use super::{Recording, Report, Session};
use crate::command::Command;
use crate::records::{EndRecord, Stretch, Turn};
use dispatch::Checked;
use model::Refusal;
use record_log::Log;
use rules::OrderRule;

impl<'s, 'm, R: OrderRule> Recording<'s, 'm, R> {
    /// Starts a run of a set and a rule that were checked, over these logs.
    pub fn start(
        checked: Checked<'s, R>,
        ends: Log<'m, EndRecord>,
        stretches: Log<'m, Stretch>,
    ) -> Recording<'s, 'm, R>
        ensures set { of_set result.session.run ≡ checked.entry.set.now }
        ensures rule { of_rule result.session.run ≡ checked.entry.rule.now }
        ensures state { state result.session.run ≡ start }
        ensures row { result.session.row ≡ None }
        ensures ends { result.ends ≡ ends.entry }
        ensures stretches { result.stretches ≡ stretches.entry }
    {
        Recording {
            session: Session::start(checked),
            ends,
            stretches,
        }
    }

    /// Carries out a command in a run, as a step of the session does, and records it in the logs.
    pub fn step(&mut self, command: Command) -> Result<Turn, Refusal>
        ensures answer { result ≡ (command_in (R.OrderRule.before (of_rule self.old.session.run))
            self.old.session self.old.ends self.old.stretches command).0 }
        ensures state { books_in self.new
            ≡ (command_in (R.OrderRule.before (of_rule self.old.session.run))
            self.old.session self.old.ends self.old.stretches command).1 }
        ensures kept { Kept self.old self.new }
    {
        self.session
            .step(command, &mut self.ends, &mut self.stretches)
    }

    /// The ends that are recorded so far.
    pub fn ends(&self) -> &[EndRecord]
        ensures value { result.now ≡ records self.now.ends }
    {
        self.ends.as_slice()
    }

    /// The stretches that are recorded so far, without the row that goes on.
    pub fn stretches(&self) -> &[Stretch]
        ensures value { result.now ≡ records self.now.stretches }
    {
        self.stretches.as_slice()
    }

    /// Closes the run, pushes the row that goes on, and hands the logs back.
    pub fn close(self) -> Report<'m>
        ensures ends { result.ends ≡ self.entry.ends }
        ensures lost { result.closed.lost ≡ (settled_in self.entry.session self.entry.stretches).0 }
        ensures stretches { records result.stretches
            ≡ (settled_in self.entry.session self.entry.stretches).1 }
        ensures clock { result.closed.totals.clock
            ≡ (totals (set_tasks self.entry.session.run) (state self.entry.session.run)).0 }
        ensures open_tasks { result.closed.totals.«open»
            ≡ (totals (set_tasks self.entry.session.run) (state self.entry.session.run)).1 }
        ensures kept { SameMemory self.entry.stretches result.stretches }
    {
        let Recording {
            session,
            ends,
            mut stretches,
        } = self;
        let closed = session.close(&mut stretches);
        Report {
            closed,
            ends,
            stretches,
        }
    }
}
