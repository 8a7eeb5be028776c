//! The accepted set.
ghost use Rattle.model.specs.Figures.{Tasks};
ghost use Rattle.admission.specs.Held.{AllShown};
ghost use Rattle.admission.specs.Held.{bounds_in, figures_in, offsets_in, points_in};

use arrayvec::ArrayVec;
use model::{Figures, Refusal};
use tasks::CAPACITY;

/// What an accepted set keeps of a task.
#[derive(Clone, Copy, PartialEq, Eq, Debug, Default)]
pub struct Admitted {
    /// The four figures of the task.
    pub figures: Figures,
    /// The point that the task was tested under.
    pub point: i32,
    /// The bound on the response of the task.
    pub bound: u16,
    /// The offset at which the bound was found.
    pub offset: u16,
}

/// A set of tasks that passed the test, with the points that it was tested under, and a bound and an offset for each
/// task. The bounds of every accepted set hold for its own figures and points: each is from 1 to its task's D, and the
/// total at the task's offset is at most the bound.
#[derive(Drop)]
pub struct Accepted {
    rows: ArrayVec<Admitted, CAPACITY>,
    ghost fit: { Tasks (figures_in rows.items) },
    ghost shown: { AllShown (figures_in rows.items) (points_in rows.items) (bounds_in rows.items) (offsets_in rows.items) },
}

impl Accepted {
    ghost use Rattle.std.specs.Prelude.{◌≡◌, [], length, map};
    ghost use Rattle.model.specs.Verdict.{Admits};
    ghost use Rattle.admission.specs.Views.{rows_of, tasks_of, points_of, bounds_of, offsets_of, row_of, Warranted};

    /// A place that holds the empty set.
    pub fn new() -> Accepted
        ensures value { tasks_of result ≡ [] }
    {
        Accepted {
            rows: ArrayVec::new(),
        }
    }

    /// The set that a granted test fills its place with.
    pub(crate) fn with(tasks: &[Figures], points: &[i32], found: &[(u16, u16)]) -> Accepted
        requires fit { Tasks tasks.now }
        requires points { length points.now ≡ length tasks.now }
        requires found { length found.now ≡ length tasks.now }
        requires admits { Admits tasks.now points.now (map (λ p. p.0) found.now) (map (λ p. p.1) found.now) }
        ensures tasks { tasks_of result ≡ tasks.now }
        ensures points { points_of result ≡ points.now }
        ensures bounds { bounds_of result ≡ map (λ p. p.0) found.now }
        ensures offsets { offsets_of result ≡ map (λ p. p.1) found.now }
    {
        let mut rows = ArrayVec::new();
        for ((figures, point), (bound, offset)) in tasks.iter().zip(points).zip(found) {
            rows.push(Admitted {
                figures: *figures,
                point: *point,
                bound: *bound,
                offset: *offset,
            });
        }
        Accepted { rows }
    }

    /// How many tasks the set has.
    pub fn count(&self) -> usize
        ensures value { result ≡ length (tasks_of self.now) }
    {
        self.rows.len()
    }

    /// What the set keeps of its tasks, in their order. The bounds are a warrant for the set's own tasks and points.
    pub fn as_slice(&self) -> &[Admitted]
        ensures value { result.now ≡ rows_of self.now }
        ensures warrant { Warranted self.now }
    {
        self.rows.as_slice()
    }

    /// What the set keeps of a task. Refused for a number that no task has.
    pub fn get(&self, task: u32) -> Result<Admitted, Refusal>
        ensures answer { result ≡ row_of self.now task }
    {
        self.as_slice()
            .get(task as usize)
            .copied()
            .ok_or(Refusal::NoSuchTask)
    }
}
