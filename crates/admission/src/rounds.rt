//! Rounds that rise from below to the smallest bounds.
ghost use Rattle.std.specs.Prelude.{◌≡◌, ◌≤◌, true, false, map, length, MatchOption};
ghost use Rattle.model.specs.Figures.{Tasks, most_tasks};
ghost use Rattle.model.specs.Verdict.{Admits, Refuses};
ghost use Rattle.admission.specs.Rows.{Rows, Same, Start};

use crate::total::{Round, alone, first_late};
use arrayvec::ArrayVec;
use model::Figures;
use tasks::CAPACITY;

/// The figures of the first round: C + S, cut at D + 1.
pub(crate) fn first_figures(tasks: &[Figures]) -> ArrayVec<u32, CAPACITY>
    requires { Tasks tasks.now }
    ensures start { Start tasks.now result.items }
{
    let mut figures = ArrayVec::new();
    for task in tasks {
        figures.push(alone(*task).min(first_late(*task)));
    }
    figures
}

/// The bounds that a round has found, as figures for the next round.
fn widened(found: &[(u16, u16)]) -> ArrayVec<u32, CAPACITY>
    requires { length found.now ≤ most_tasks }
    ensures value { result.items ≡ map (λ p. p.0) found.now }
{
    let mut figures = ArrayVec::new();
    for (bound, _) in found {
        figures.push(u32::from(*bound));
    }
    figures
}

/// Whether the bounds that a round has found are the figures that they were found under.
fn nothing_moved(figures: &[u32], found: &[(u16, u16)]) -> bool
    requires { length found.now ≤ length figures.now }
    ensures value { elim result [
      | true ↦ Same figures.now (map (λ p. p.0) found.now) (length found.now)
      | false ↦ (Same figures.now (map (λ p. p.0) found.now) (length found.now) → ⊥)
    ] }
{
    figures
        .iter()
        .zip(found)
        .all(|(figure, (bound, _))| *figure == u32::from(*bound))
}

/// The smallest bounds with their offsets, or `None` where no bounds hold. In every round each task's figure becomes
/// its smallest total under the figures of the round before. The figures stay at or below all bounds that hold, so the
/// rounds end when one passes its deadline, and no bounds hold, or when none moves.
pub(crate) fn smallest_bounds(
    tasks: &[Figures],
    points: &[i32],
    start: ArrayVec<u32, CAPACITY>,
) -> Option<ArrayVec<(u16, u16), CAPACITY>>
    requires rows { Rows tasks.now points.now start.items }
    requires start { Start tasks.now start.items }
    ensures answer { MatchOption result (Refuses tasks.now points.now)
        (λ f. Admits tasks.now points.now (map (λ p. p.0) f.items) (map (λ p. p.1) f.items)) }
{
    let mut figures = start;
    'rounds: loop {
        let round = Round {
            tasks,
            points,
            figures: &figures,
        };
        let mut found = ArrayVec::new();
        // Not over the rows: a task is looked at by its number, beside all others.
        for own in 0..tasks.len() {
            let Some(least) = round.smallest_total(own) else {
                break 'rounds None;
            };
            found.push(least);
        }
        if nothing_moved(&figures, &found) {
            break 'rounds Some(found);
        }
        figures = widened(&found);
    }
}
