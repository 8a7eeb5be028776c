//! The commands of a run, and what they say.
ghost use Rattle.std.specs.Prelude.{◌≡◌, IfOk, string_bytes};
ghost use Rattle.dispatch.specs.Runs.{of_rule, set_tasks};
ghost use Rattle.record_log.specs.Records.{room};
ghost use Rattle.script.specs.Kept.{Kept};
ghost use Rattle.script.specs.Sessions.{opened};
ghost use Rattle.script.specs.Views.{books_in};
ghost use Rattle.text.specs.Spoken.{log_room, obeyed};

use crate::line::Line;
use crate::saying::{say, say_losses};
use dispatch::Checked;
use model::Refusal;
use record_log::Log;
use rules::OrderRule;
use script::{Command, EndRecord, RECORDS, Recording, Stretch, Turn};
use std::alloc::AllocError;

/// A run that is played. Its logs have the room that a script gives them.
#[derive(Drop)]
pub(crate) struct Play<'s, 'm, R> {
    pub(crate) recording: Recording<'s, 'm, R>,
    ghost end_room: { room recording.ends ≡ log_room },
    ghost row_room: { room recording.stretches ≡ log_room },
}

impl<'s, 'm, R: OrderRule> Play<'s, 'm, R> {
    ghost use Rattle.admission.specs.Views.{tasks_of};
    ghost use Rattle.text.specs.Playing.{Said};

    /// Starts a run with two empty logs over this memory.
    pub(crate) fn start(
        checked: Checked<'s, R>,
        ends: &'m mut [EndRecord; RECORDS],
        stretches: &'m mut [Stretch; RECORDS],
    ) -> Play<'s, 'm, R>
        ensures tasks { set_tasks result.recording.session.run ≡ tasks_of checked.entry.set.now }
        ensures rule { of_rule result.recording.session.run ≡ checked.entry.rule.now }
        ensures books { books_in result.recording ≡ opened }
    {
        Play {
            recording: Recording::start(checked, Log::over(ends), Log::over(stretches)),
        }
    }

    // Carries out what was read.
    fn obey(&mut self, item: Result<Command, Refusal>) -> Result<Turn, Refusal>
        ensures answer { result ≡ (obeyed (set_tasks self.old.recording.session.run)
            (R.OrderRule.before (of_rule self.old.recording.session.run)) item (books_in self.old.recording)).0 }
        ensures state { books_in self.new.recording ≡ (obeyed (set_tasks self.old.recording.session.run)
            (R.OrderRule.before (of_rule self.old.recording.session.run)) item (books_in self.old.recording)).1 }
        ensures kept { Kept self.old.recording self.new.recording }
    {
        self.recording.step(item?)
    }

    /// Carries out what was read and says what it answers. Answers whether the run is to be closed.
    // Not a `ControlFlow`: one thing is asked, and `if run.step(..)? { break; }` says it.
    pub(crate) fn step(
        &mut self,
        item: Result<Command, Refusal>,
        text: &mut String,
    ) -> Result<bool, AllocError>
        ensures said { IfOk result (λ closes. Said (set_tasks self.old.recording.session.run)
            (R.OrderRule.before (of_rule self.old.recording.session.run)) item
            (books_in self.old.recording) (books_in self.new.recording)
            (string_bytes text.old) (string_bytes text.new) closes) }
        ensures kept { Kept self.old.recording self.new.recording }
    {
        match self.obey(item) {
            Ok(Turn::Made(lost)) => {
                say_losses(text, lost)?;
                Ok(false)
            }
            Ok(Turn::Closes) => Ok(true),
            Err(refusal) => {
                say(text, Line::Refused(refusal))?;
                Ok(false)
            }
        }
    }
}
