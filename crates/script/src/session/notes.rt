//! What a call gives to record.
ghost use Rattle.std.specs.Prelude.{◌≡◌, ◌<◌, length, Ok};
ghost use Rattle.dispatch.specs.Runs.{set_tasks, state};
ghost use Rattle.record_log.specs.Records.{records, room};
ghost use Rattle.script.specs.Kept.{SameMemory};
ghost use Rattle.script.specs.Names.{Named};
ghost use Rattle.script.specs.Sessions.{end_of, ended_by, noted, rows, stretch};

use crate::records::{Cause, EndRecord, Row, Stretch};
use dispatch::Run;
use model::{Answer, Ticked};
use record_log::Log;
use rules::OrderRule;

// Pushes a record, if there is one, and answers whether it is lost.
pub(crate) fn note<T: Copy>(log: &mut Log<'_, T>, record: Option<T>) -> bool
    ensures answer { result ≡ (noted (room log.old) (records log.old) «record»).0 }
    ensures records { records log.new
        ≡ (noted (room log.old) (records log.old) «record»).1 }
    ensures memory { SameMemory log.old log.new }
{
    // Not is_some_and: of what its closure pushes on the log the proof learns nothing.
    match record {
        Some(record) => log.push(record).is_err(),
        None => false,
    }
}

// The end of the latest job of a task.
fn end_of<R: OrderRule>(run: &Run<'_, R>, task: u32, cause: Cause) -> EndRecord
    requires { task < length (set_tasks run.now) }
    ensures value { result ≡ end_of task cause (state run.now) }
{
    let job = run.latest(task).ok().flatten().unwrap_or_default();
    EndRecord {
        task,
        release: job.release,
        end: run.clock(),
        given: job.given,
        cause,
    }
}

// The end that a call with this answer brought.
pub(crate) fn ended_by<R: OrderRule>(run: &Run<'_, R>, answer: Answer) -> Option<EndRecord>
    requires { Named (length (set_tasks run.now)) (Ok answer) }
    ensures value { result ≡ ended_by (Ok answer) (state run.now) }
{
    match answer {
        Answer::Finished(ended) => Some(end_of(run, ended.task, Cause::Finish)),
        Answer::Passed(
            Ticked {
                ran: Some(task),
                ended: true,
                ..
            },
        ) => Some(end_of(run, task, Cause::Count)),
        _ => None,
    }
}

impl Row {
    // The stretch that the row makes if it stops now.
    pub(crate) fn stretch(&self, clock: u32) -> Stretch
        ensures value { result ≡ stretch clock self.now }
    {
        Stretch {
            task: self.task,
            first: self.first,
            ticks: clock.saturating_sub(self.first),
        }
    }
}

// The row that a call with this answer stops, and the row that goes on, from the clock before it.
pub(crate) fn turned(clock: u32, answer: Answer, row: Option<Row>) -> (Option<Stretch>, Option<Row>)
    ensures value { result ≡ rows clock (Ok answer) row }
{
    let Answer::Passed(ticked) = answer else {
        return (None, row);
    };
    let begins = Some(Row {
        task: ticked.ran,
        first: clock,
    });
    match row {
        Some(old) if old.task == ticked.ran => (None, row),
        Some(old) => (Some(old.stretch(clock)), begins),
        None => (None, begins),
    }
}
