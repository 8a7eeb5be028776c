//! What an order rule is.
ghost use Rattle.std.specs.Prelude.{◌≡◌, ℕ, Bool, ℤ};
ghost use Rattle.model.specs.Orders.{Lawful, priority};
ghost use Rattle.model.specs.declared.job.JobId.{JobId as Job};

use model::JobId;

/// An order between jobs: what it means, and the laws that it shows. A job is known by its task number and its release
/// clock; its priority point is the release clock plus the task's point.
///
/// Whatever is admitted or dispatched under a rule is proved from these members alone, so a rule of one's own may be
/// of any shape: it may borrow what it looks at, have const parameters, and be a value that may not be dropped.
pub trait OrderRule {
    /// The point of every task number.
    ghost points: { Self → ℕ → ℤ };

    /// Whether the first job goes before the second.
    ghost before: { Self → Job → Job → Bool };

    /// The laws: points are in −1 000 000 000 … 1 000 000 000; of two different jobs exactly one goes before the
    /// other and none before itself; the relation is transitive; the smaller priority point goes first.
    ghost laws: { (s : Self) → Lawful (points s) (before s) };

    /// The point of a task number. No number is refused.
    fn point(&self, task: u32) -> i32
        ensures value { result ≡ points self.now task };

    /// Whether job `a` goes before job `b`. No job is refused.
    fn goes_before(&self, a: JobId, b: JobId) -> bool
        ensures value { result ≡ before self.now a b };

    /// The priority point of a job.
    fn priority(&self, job: JobId) -> i64
        ensures value { result ≡ priority (points self.now) job }
    {
        i64::from(job.release) + i64::from(self.point(job.task))
    }
}
