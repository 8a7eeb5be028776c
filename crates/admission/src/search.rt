//! The smallest total of a task over its offsets.
ghost use Rattle.std.specs.Prelude.{◌<◌, ◌≤◌, length, MatchOption, slice_index_or};
ghost use Rattle.model.specs.Figures.{no_task};
ghost use Rattle.model.specs.Verdict.{SmallestTotal, AllLate};

use crate::total::{Round, alone, first_late};

impl Round<'_> {
    /// The smallest total of task `own` over its offsets with the smallest offset that attains it, or `None` where it
    /// passes the deadline. An offset at which C, S and the offset alone come up to the best total ends the search,
    /// since totals at later offsets are larger still.
    pub(crate) fn smallest_total(self, own: usize) -> Option<(u16, u16)>
        requires { own < length self.tasks.now }
        ensures { MatchOption result (AllLate self.entry.tasks.now self.entry.points.now self.entry.figures.now own)
            (λ p. SmallestTotal self.entry.tasks.now self.entry.points.now self.entry.figures.now own p.0 p.1
            × (p.0 ≤ (slice_index_or self.entry.tasks.now own no_task).deadline)) }
    {
        let task = self.tasks[own];
        let alone = u64::from(alone(task));
        let late = u64::from(first_late(task));
        // Not an `Option` of the best so far: no total from D + 1 on counts, so that number starts both tests.
        let mut best = late;
        let mut at = 0;
        for offset in 0..task.deadline {
            if alone + u64::from(offset) >= best {
                break;
            }
            let total = self.total(own, offset);
            if total < best {
                best = total;
                at = offset;
            }
        }
        if best >= late {
            return None;
        }
        Some((best as u16, at))
    }
}
