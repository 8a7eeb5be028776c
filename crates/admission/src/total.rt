//! The total of a task at an offset.
ghost use Rattle.std.specs.Prelude.{◌≡◌, ◌+◌, ◌*◌, ◌^◌, ◌<◌, ◌≤◌, length, pos, ◌+ℤ◌, ◌-ℤ◌, ◌≤ℤ◌};
ghost use Rattle.model.specs.Test.{periods, share, total};
ghost use Rattle.admission.specs.Rows.{Rows};

use model::Figures;

/// C + S: what one job of a task takes with no other task.
pub(crate) fn alone(task: Figures) -> u32
    ensures value { result ≡ task.execution + task.suspension }
    ensures small { result < 2 ^ 17 }
{
    u32::from(task.execution) + u32::from(task.suspension)
}

/// D + 1: the first response that is late.
pub(crate) fn first_late(task: Figures) -> u32
    ensures value { result ≡ task.deadline + 1 }
    ensures small { result ≤ 2 ^ 16 }
{
    u32::from(task.deadline) + 1
}

/// How far another task's jobs reach into a job of the own task: the own point less the other's, plus the other's
/// bound, less the offset.
fn reach(own: i32, other: i32, bound: u32, offset: u16) -> i64
    ensures value { result ≡ ((own -ℤ other) +ℤ pos bound) -ℤ pos offset }
    ensures near { result ≤ℤ pos (2 ^ 33) }
{
    i64::from(own) - i64::from(other) + i64::from(bound) - i64::from(offset)
}

/// A reach divided by a period, rounded up; 0 at or below 0.
fn periods(reach: i64, period: u16) -> u64
    requires { 1 ≤ period }
    ensures value { result ≡ periods reach period }
{
    if reach <= 0 {
        return 0;
    }
    (reach as u64).div_ceil(u64::from(period))
}

/// What a task takes that reaches so far: its count of jobs times its C.
fn taken(task: Figures, reach: i64) -> u64
    requires period { 1 ≤ task.period }
    requires near { reach ≤ℤ pos (2 ^ 33) }
    ensures value { result ≡ periods reach task.period * task.execution }
    ensures small { result < 2 ^ 50 }
{
    periods(reach, task.period) * u64::from(task.execution)
}

/// What a round looks at: tasks that fit, one point for each, and a figure for the bound of each.
// Not rows: tasks and points are the caller's and stay, and the figures are new in every round.
// Not a type for the numbers of tasks: whether a number is one hangs on the round.
#[derive(Clone, Copy)]
pub(crate) struct Round<'t> {
    pub(crate) tasks: &'t [Figures],
    pub(crate) points: &'t [i32],
    pub(crate) figures: &'t [u32],
    ghost rows: { Rows tasks.now points.now figures.now },
}

impl Round<'_> {
    /// What task `other` takes from a job of task `own` at an offset: nothing if they are one task.
    fn share(self, own: usize, offset: u16, other: usize) -> u64
        requires own { own < length self.tasks.now }
        requires other { other < length self.tasks.now }
        ensures value { result ≡ share self.entry.tasks.now self.entry.points.now self.entry.figures.now own offset other }
        ensures small { result < 2 ^ 50 }
    {
        if other == own {
            return 0;
        }
        let reach = reach(
            self.points[own],
            self.points[other],
            self.figures[other],
            offset,
        );
        taken(self.tasks[other], reach)
    }

    /// The total of task `own` at an offset: its C, its S and the offset, and what every other task takes.
    pub(crate) fn total(self, own: usize, offset: u16) -> u64
        requires { own < length self.tasks.now }
        ensures { result ≡ total self.entry.tasks.now self.entry.points.now self.entry.figures.now own offset }
    {
        let mut sum = u64::from(alone(self.tasks[own])) + u64::from(offset);
        // Not the `sum` of a chain: the proof that it fits needs how small each share is, which the call alone says.
        for other in 0..self.tasks.len() {
            sum += self.share(own, offset, other);
        }
        sum
    }
}
