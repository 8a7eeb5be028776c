//! The rules that layers can stand on: deadline, arrival and level.
ghost use Rattle.std.specs.Prelude.{◌≡◌, ◌-◌, pos, ◌+ℤ◌, ◌≤ℤ◌};
ghost use Rattle.model.proofs.Orders.{bottom_lawful};
ghost use Rattle.model.specs.Orders.{farthest};
ghost use Rattle.model.specs.Rules.{arrival_point, by_points, deadline_point, level_point, lower_number};
ghost use Rattle.rules.specs.Kinds.{bottom_point, kind_from};
ghost use Rattle.rules.specs.Points.{in_range, point_of};
ghost use Rattle.tasks.specs.Listed.{listed};

use crate::points::Points;
use crate::rule::OrderRule;
use model::{Figures, JobId, Refusal};
use tasks::Table;

/// The three rules.
#[derive(Clone, Copy, PartialEq, Eq, Debug)]
pub enum Kind {
    /// The point of a task is its D: the job with the earlier deadline goes first.
    Deadline,
    /// Every point is 0: the job that was released first goes first.
    Arrival,
    /// The point of a task is its D plus D of all lower-numbered tasks, so that a lower number weighs heavily.
    Level,
}

/// The kind of a byte: 0 deadline, 1 arrival, 2 level. Refused above 2.
impl TryFrom<u8> for Kind {
    type Error = Refusal;

    ghost try_from_gives = { λ byte kind. kind ≡ kind_from byte };

    fn try_from(byte: u8) -> Result<Kind, Refusal> {
        match byte {
            0 => Ok(Kind::Deadline),
            1 => Ok(Kind::Arrival),
            2 => Ok(Kind::Level),
            _ => Err(Refusal::RuleOutOfRange),
        }
    }
}

/// One of the three rules. Equal priority points go to the lower number.
#[derive(Clone, Copy)]
pub struct Bottom {
    points: Points,
}

impl Bottom {
    /// The rule of a kind, for the tasks that the table has now.
    pub fn new(kind: Kind, table: &Table) -> Bottom
        ensures points { point_of result.points ≡ bottom_point kind (listed table.now) }
    {
        // Not a closure: a kind is data, which scripts and hosts hand over as a byte.
        match kind {
            Kind::Deadline => Bottom::deadline(table),
            Kind::Arrival => Bottom::arrival(),
            Kind::Level => Bottom::level(table),
        }
    }

    /// The deadline rule for the tasks that the table has now.
    pub fn deadline(table: &Table) -> Bottom
        ensures points { point_of result.points ≡ deadline_point (listed table.now) }
    {
        let mut points = Points::zero();
        let tasks = table.as_slice();
        for (i, figures) in tasks.iter().enumerate() {
            points.put(i, i32::from(figures.deadline));
        }
        Bottom { points }
    }

    /// The arrival rule, which is the same for every table.
    pub fn arrival() -> Bottom
        ensures points { point_of result.points ≡ arrival_point }
    {
        Bottom {
            points: Points::zero(),
        }
    }

    /// The level rule for the tasks that the table has now.
    pub fn level(table: &Table) -> Bottom
        ensures points { point_of result.points ≡ level_point (listed table.now) }
    {
        let mut points = Points::zero();
        let mut level = 0i32;
        let tasks = table.as_slice();
        for (i, figures) in tasks.iter().enumerate() {
            let own = raised(level, figures);
            points.put(i, own);
            level = own;
        }
        Bottom { points }
    }
}

// The level of a task, from that of the task before it.
fn raised(level: i32, figures: &Figures) -> i32
    requires { (pos 0 ≤ℤ level) × (level ≤ℤ pos (farthest - 65535)) }
    ensures value { result ≡ level +ℤ pos figures.now.deadline }
    ensures bound { result ≤ℤ (level +ℤ pos 65535) }
{
    level + i32::from(figures.deadline)
}

impl OrderRule for Bottom {
    ghost points = { λ s. point_of s.points };

    ghost before = { λ s. by_points (point_of s.points) lower_number };

    ghost laws = { λ s. bottom_lawful (point_of s.points) (in_range s.points) };

    fn point(&self, task: u32) -> i32 {
        self.points.get(task)
    }

    // Not a comparison of pairs: the tie of a layer is another rule, and all rules are written alike.
    fn goes_before(&self, a: JobId, b: JobId) -> bool {
        let p = self.priority(a);
        let q = self.priority(b);
        if p == q { a.task < b.task } else { p < q }
    }
}
