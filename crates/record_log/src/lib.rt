//! A log of records of any kind, in memory that its user brings.
#![tactic(auto)]

ghost use Rattle.std.specs.Prelude.{◌≤◌, length};

mod methods;

/// Records in the order of their pushing. The memory is lent: the log allocates nothing, and its user has the memory
/// back when the log is gone.
// Not a Vec: nothing here allocates, so the memory is a slice that is lent, with the count of its records beside it.
#[derive(Drop)]
pub struct Log<'m, T> {
    memory: &'m mut [T],
    count: usize,
    ghost fits: { count ≤ length memory.now },
}
