//! Checking a set and a rule, and starting a run.
ghost use Rattle.std.specs.Prelude.{◌≡◌};
ghost use Rattle.admission.specs.Views.{points_of};
ghost use Rattle.dispatch.specs.Runs.{Matched, state, of_set, of_rule};
ghost use Rattle.model.specs.State.{start};

use super::{Checked, Run};
use crate::board::Board;
use admission::Accepted;
use model::Refusal;
use rules::OrderRule;

impl<'s, R: OrderRule> Checked<'s, R> {
    /// Checks a rule against an accepted set. Refused exactly if the rule gives some task of the set another point.
    pub fn check(set: &'s Accepted, rule: &'s R) -> Result<Checked<'s, R>, Refusal>
        ensures answer { Matched set.now rule.now (R.OrderRule.points rule.now) result }
    {
        for (task, row) in set.as_slice().iter().enumerate() {
            if rule.point(task as u32) != row.point {
                return Err(Refusal::OtherPoints);
            }
        }
        Ok(Checked { set, rule })
    }

    /// Starts a run: the clock is 0, and nothing was released.
    pub fn start(self) -> Run<'s, R>
        ensures state { state result ≡ start }
        ensures set { of_set result ≡ self.entry.set.now }
        ensures rule { of_rule result ≡ self.entry.rule.now }
    {
        Run {
            board: Board::new(self.set),
            rule: self.rule,
        }
    }
}
