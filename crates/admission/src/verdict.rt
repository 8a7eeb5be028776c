//! The test.
ghost use Rattle.std.specs.Prelude.{◌≡◌, ◌≤◌, length};
ghost use Rattle.model.specs.Figures.{most_tasks};
ghost use Rattle.model.specs.Verdict.{first_points};
ghost use Rattle.tasks.specs.Listed.{listed};
ghost use Rattle.admission.specs.Tested.{Tested};

use crate::Accepted;
use crate::rounds::{first_figures, smallest_bounds};
use arrayvec::ArrayVec;
use model::Refusal;
use rules::OrderRule;
use tasks::{CAPACITY, Table};

/// The points that a rule gives to the first tasks.
fn points_under<R: OrderRule>(rule: &R, count: usize) -> ArrayVec<i32, CAPACITY>
    requires { count ≤ most_tasks }
    ensures one_each { length result.items ≡ count }
    ensures value { result.items ≡ first_points (R.OrderRule.points rule.now) count }
{
    let mut points = ArrayVec::new();
    for task in 0..count {
        points.push(rule.point(task as u32));
    }
    points
}

/// Tests a table under a rule. Granted exactly when bounds hold for all tasks: then the place holds the table's tasks,
/// the rule's points, the smallest bounds and for each task the smallest offset at which its bound is attained. Else
/// refused, since no bounds hold, and the place is as it stood.
pub fn admit<R: OrderRule>(table: &Table, rule: &R, place: &mut Accepted) -> Result<(), Refusal>
    ensures verdict { Tested (listed table.now)
        (first_points (R.OrderRule.points rule.now) (length (listed table.now)))
        place.old place.new result }
{
    let tasks = table.as_slice();
    let points = points_under(rule, tasks.len());
    let found = smallest_bounds(tasks, &points, first_figures(tasks)).ok_or(Refusal::NoWarrant)?;
    *place = Accepted::with(tasks, &points, &found);
    Ok(())
}
