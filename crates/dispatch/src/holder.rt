//! A whole run in one call, with the law of every run on its contract.
ghost use Rattle.std.specs.Prelude.{◌≡◌};
ghost use Rattle.admission.specs.Views.{tasks_of};
ghost use Rattle.dispatch.specs.Holding.{Held, calls, filled};
ghost use Rattle.dispatch.specs.Runs.{Kept, of_rule, of_set, state};
ghost use Rattle.model.specs.Machine.{after};

use crate::run::{Checked, Run, Totals};
use admission::Accepted;
use model::{Answer, Call, Refusal};
use rules::OrderRule;

/// A call, and a place for its answer.
#[derive(Clone, Copy, PartialEq, Eq, Debug)]
pub struct Entry {
    pub call: Call,
    pub answer: Option<Result<Answer, Refusal>>,
}

// Makes the calls of all entries in their order, and writes the answers.
fn make_all<R: OrderRule>(run: &mut Run<'_, R>, entries: &mut [Entry])
    ensures entries { entries.new
        ≡ filled (tasks_of (of_set run.old)) (R.OrderRule.before (of_rule run.old)) (state
        run.old) entries.old }
    ensures state { state run.new
        ≡ after (tasks_of (of_set run.old)) (R.OrderRule.before (of_rule run.old)) (state
        run.old) (calls entries.old) }
    ensures kept { Kept run.old run.new }
{
    for slot in entries.iter_mut() {
        slot.answer = Some(run.call(slot.call));
    }
}

/// Checks the set and the rule, starts a run, makes the calls one after the other, writes each answer beside its
/// call, and closes the run. Refused exactly if the rule gives some task of the set another point, and then every
/// entry is as it stood.
///
/// Whatever the calls are, the transcript that pairs them with the answers handed back keeps all promises: every job
/// ends within its bound, a job is given exactly what it was admitted with, no task gets more than its share of any
/// ticks in a row, and the transcript is whole.
pub fn hold<'s, R: OrderRule>(
    set: &'s Accepted,
    rule: &'s R,
    entries: &mut [Entry],
) -> Result<Totals, Refusal>
    ensures outcome { Held set.now (R.OrderRule.points rule.now) (R.OrderRule.before
        rule.now) entries.old entries.new result }
{
    model::run_law();
    let checked = Checked::check(set, rule)?;
    let mut run = checked.start();
    make_all(&mut run, entries);
    Ok(run.close())
}
