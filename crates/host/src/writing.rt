//! The result's bytes.
ghost use Rattle.std.specs.Prelude.{◌≡◌, ◌+◌, ◌*◌, ◌≤◌, ◌++◌, length, drop};
ghost use Rattle.admission.specs.Views.{bounds_of, offsets_of, tasks_of};
ghost use Rattle.host.specs.Written.{answer_bytes, placed};

use admission::Accepted;

/// The bytes of a task: its bound and its offset.
pub(crate) const ANSWER: usize = 4;

// Writes a number at a place, low byte first.
fn put(res: &mut [u8], at: usize, number: u16)
    requires { at + 2 ≤ length res.old }
    ensures bytes { res.new ≡ placed res.old at number }
{
    res[at..at + 2].copy_from_slice(&number.to_le_bytes());
}

/// Writes bound and offset of each task, and leaves the bytes behind them.
pub(crate) fn write_answers(set: &Accepted, res: &mut [u8])
    requires { 4 * length (tasks_of set.now) ≤ length res.old }
    ensures bytes { res.new
        ≡ answer_bytes (bounds_of set.now) (offsets_of set.now)
        ++ drop (4 * length (tasks_of set.now)) res.old }
{
    // Not chunks of the result: once a chunk's borrow ends, no contract of std says what the slice holds.
    for (task, row) in set.as_slice().iter().enumerate() {
        let at = ANSWER * task;
        put(res, at, row.bound);
        put(res, at + 2, row.offset);
    }
}
