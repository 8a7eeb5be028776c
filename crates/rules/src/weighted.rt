//! Layers: a weight on a figure, over any rule.
ghost use Rattle.std.specs.Prelude.{◌≡◌, true, not, pos, [], ◌∷◌, ◌+ℤ◌, ◌*ℤ◌, neg_ℤ, ◌≤ℤ◌};
ghost use Rattle.model.proofs.Orders.{layer_lawful};
ghost use Rattle.model.specs.Checks.{question};
ghost use Rattle.model.specs.Orders.{InRange};
ghost use Rattle.model.specs.Rules.{allowed, by_points, capped, weighted_point};
ghost use Rattle.model.specs.declared.refusal.Refusal.TheVariants.{RuleOutOfRange};
ghost use Rattle.rules.specs.Points.{in_range, point_of};
ghost use Rattle.tasks.specs.Listed.{listed};

use crate::points::{LARGEST, Points, SMALLEST};
use crate::rule::OrderRule;
use model::{Figures, JobId, Refusal};
use tasks::Table;

/// The heaviest weight; the lightest is its negative.
pub const HEAVIEST: i32 = 16;

/// The figure that a layer weighs.
// Not a closure: the enum says, in the contract and in the call, which of the two figures is meant.
#[derive(Clone, Copy, PartialEq, Eq, Debug)]
pub enum Figure {
    /// C.
    Execution,
    /// S.
    Suspension,
}

/// A layer over a rule, which it borrows: to the point below it adds its weight times C, or times S, of the task; a
/// sum beyond an end of the range of points stops there. On equal priority points the rule below decides.
#[derive_where(Clone, Copy)]
pub struct Weighted<'r, R> {
    points: Points,
    below: &'r R,
}

impl Figure {
    ghost use Rattle.rules.specs.Figure.{figure_of};

    fn of(self, figures: &Figures) -> u16
        ensures value { result ≡ figure_of self figures.now }
    {
        match self {
            Figure::Execution => figures.execution,
            Figure::Suspension => figures.suspension,
        }
    }
}

/// Refuses a weight outside −16 … 16.
// Not a type of weights: a layer is handed any number and refuses it, so the type would be made and taken apart at once.
pub(crate) fn check_weight(weight: i32) -> Result<(), Refusal>
    ensures answer { result ≡ question ((not (allowed weight), RuleOutOfRange) ∷ []) tt }
{
    if weight < -HEAVIEST || weight > HEAVIEST {
        return Err(Refusal::RuleOutOfRange);
    }
    Ok(())
}

// A weight times a figure.
fn product(weight: i32, figure: u16) -> i32
    requires light { allowed weight ≡ true }
    ensures value { result ≡ weight *ℤ pos figure }
    ensures low { neg_ℤ (pos 1048560) ≤ℤ result }
    ensures high { result ≤ℤ pos 1048560 }
{
    weight * i32::from(figure)
}

// A point and what a layer adds to it.
fn sum(below: i32, added: i32) -> i32
    requires range { InRange below }
    requires low { neg_ℤ (pos 1048560) ≤ℤ added }
    requires high { added ≤ℤ pos 1048560 }
    ensures value { result ≡ below +ℤ added }
{
    below.saturating_add(added)
}

// A sum, stopped at the ends of the range of points.
// Not a type of points: the trait of rules answers an `i32`, so it would be taken apart wherever it is made.
fn stopped(sum: i32) -> i32
    ensures value { result ≡ capped sum }
    ensures range { InRange result }
{
    sum.min(LARGEST).max(SMALLEST)
}

impl<'r, R: OrderRule> Weighted<'r, R> {
    ghost use Rattle.rules.specs.Figure.{figure_of};
    ghost use Rattle.rules.specs.Layers.{Layered};

    /// The layer that adds `weight` times a figure for the tasks that the table has now. Refused if the weight is
    /// outside −16 … 16.
    pub fn over(
        table: &Table,
        figure: Figure,
        weight: i32,
        below: &'r R,
    ) -> Result<Weighted<'r, R>, Refusal>
        ensures answer { Layered (figure_of figure) (listed table.now) weight below.now
            (R.OrderRule.points below.now) result }
    {
        check_weight(weight)?;
        let points = Weighted::points(table, figure, weight, below);
        Ok(Weighted { points, below })
    }

    // The points of a layer.
    fn points(table: &Table, figure: Figure, weight: i32, below: &R) -> Points
        requires light { allowed weight ≡ true }
        ensures value { point_of result
            ≡ weighted_point (figure_of figure) (listed table.now) weight (R.OrderRule.points below.now) }
    {
        let mut points = Points::zero();
        let tasks = table.as_slice();
        for (i, figures) in tasks.iter().enumerate() {
            let added = product(weight, figure.of(figures));
            points.put(i, stopped(sum(below.point(i as u32), added)));
        }
        points
    }
}

impl<'r, R: OrderRule> OrderRule for Weighted<'r, R> {
    ghost points = { λ s. point_of s.points };

    ghost before = { λ s. by_points (point_of s.points) (R.OrderRule.before s.below.now) };

    ghost laws = { λ s. layer_lawful (point_of s.points) (R.OrderRule.points s.below.now)
        (R.OrderRule.before s.below.now) (in_range s.points) (R.OrderRule.laws s.below.now) };

    fn point(&self, task: u32) -> i32 {
        self.points.get(task)
    }

    fn goes_before(&self, a: JobId, b: JobId) -> bool {
        let p = self.priority(a);
        let q = self.priority(b);
        if p == q {
            self.below.goes_before(a, b)
        } else {
            p < q
        }
    }
}
