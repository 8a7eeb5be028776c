//! One point for all tasks.
ghost use Rattle.own_rule.specs.Same.{same_before, same_laws, same_point};

use model::JobId;
use rules::OrderRule;

/// A rule with one point for every number, which the compiler knows; ties go to the lower number. It may not be
/// dropped: `end` takes it.
pub struct SamePoint<const POINT: u16> {}

impl<const POINT: u16> SamePoint<POINT> {
    /// The rule.
    pub fn new() -> SamePoint<POINT> {
        SamePoint {}
    }

    /// Ends the rule.
    pub fn end(self) {
        let SamePoint {} = self;
    }
}

impl<const POINT: u16> OrderRule for SamePoint<POINT> {
    ghost points = { λ _. same_point POINT };

    ghost before = { λ _. same_before POINT };

    ghost laws = { λ _. same_laws POINT };

    fn point(&self, _task: u32) -> i32 {
        i32::from(POINT)
    }

    fn goes_before(&self, a: JobId, b: JobId) -> bool {
        if a.release == b.release {
            a.task < b.task
        } else {
            a.release < b.release
        }
    }
}
