//! Points of one's own, and ties to the higher number.
ghost use Rattle.std.specs.Prelude.{◌≡◌};
ghost use Rattle.own_rule.specs.Higher.{higher_before, higher_laws, higher_point};

use model::JobId;
use rules::{LARGEST, OrderRule, SMALLEST};

/// A rule over borrowed points. A number past the list has point 0, and a listed point beyond an end of the range of
/// points counts as that end. Of jobs with equal priority points the one with the higher task number goes first, and
/// of two jobs of one task the one that was released first.
#[derive(Clone, Copy)]
pub struct HigherFirst<'p> {
    points: &'p [i32],
}

impl<'p> HigherFirst<'p> {
    /// The rule with these points.
    pub fn new(points: &'p [i32]) -> HigherFirst<'p>
        ensures value { result.points.now ≡ points.now }
    {
        HigherFirst { points }
    }
}

impl<'p> OrderRule for HigherFirst<'p> {
    ghost points = { λ s. higher_point s.points.now };

    ghost before = { λ s. higher_before s.points.now };

    ghost laws = { λ s. higher_laws s.points.now };

    fn point(&self, task: u32) -> i32 {
        let listed = self.points.get(task as usize).copied();
        listed.unwrap_or(0).min(LARGEST).max(SMALLEST)
    }

    fn goes_before(&self, a: JobId, b: JobId) -> bool {
        let p = self.priority(a);
        let q = self.priority(b);
        if p == q { a.task > b.task } else { p < q }
    }
}
