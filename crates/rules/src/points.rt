//! The points of a rule, made once.
ghost use Rattle.std.specs.Prelude.{◌≡◌, ◌<◌, ℕ, length, pos, neg_ℤ, ◌≤ℤ◌, slice_index_or, slice_set};
ghost use Rattle.model.specs.Figures.{most_tasks};
ghost use Rattle.model.specs.Orders.{InRange, farthest};
ghost use Rattle.model.specs.Rules.{arrival_point};

use tasks::CAPACITY;

/// The largest point.
pub const LARGEST: i32 = 1_000_000_000;

/// The smallest point.
pub const SMALLEST: i32 = -1_000_000_000;

/// A point for every task number: what is stored, and 0 for all other numbers.
// Not an `ArrayVec`: a rule is copied freely, and an `ArrayVec` is not `Copy`.
#[derive(Clone, Copy)]
pub(crate) struct Points {
    at: [i32; CAPACITY],
    ghost room: { length at ≡ most_tasks },
    ghost low: { (k : ℕ) → neg_ℤ (pos farthest) ≤ℤ slice_index_or at k (pos 0) },
    ghost high: { (k : ℕ) → slice_index_or at k (pos 0) ≤ℤ pos farthest },
}

impl Points {
    ghost use Rattle.rules.specs.Points.{point_of};

    /// The point 0 for every number.
    pub(crate) fn zero() -> Points
        ensures each { (k : ℕ) → point_of result k ≡ pos 0 }
        ensures points { point_of result ≡ arrival_point }
    {
        Points { at: [0; CAPACITY] }
    }

    /// Gives one task another point.
    // Not one function with a closure for the point: the level of a task hangs on the one before it, so the closure would
    // have a state of its own.
    pub(crate) fn put(&mut self, task: usize, point: i32)
        requires within { task < most_tasks }
        requires range { InRange point }
        ensures state { self.new.at ≡ slice_set self.old.at task point }
    {
        self.at[task] = point;
    }

    /// The point of a task number.
    pub(crate) fn get(&self, task: u32) -> i32
        ensures value { result ≡ point_of self.now task }
    {
        self.at.get(task as usize).copied().unwrap_or(0)
    }
}
