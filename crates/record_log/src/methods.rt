//! Making a log, pushing on it and asking it.
ghost use Rattle.std.specs.Prelude.{◌≡◌, [], length};
ghost use Rattle.record_log.specs.Records.{memory_after, push, records, room};
ghost use Rattle.std.specs.List.{slice_get};

use crate::Log;
use model::Refusal;

impl<'m, T> Log<'m, T> {
    /// A log with no record, over memory that stays as it is.
    pub fn over(memory: &'m mut [T]) -> Log<'m, T>
        ensures records { records result ≡ [] }
        ensures memory { result.memory.now ≡ memory.old }
        ensures name { result.memory.ghost_name ≡ memory.entry.ghost_name }
    {
        Log { memory, count: 0 }
    }

    /// The records in the order of their pushing.
    pub fn as_slice(&self) -> &[T]
        ensures value { result.now ≡ records self.now }
    {
        &self.memory[..self.count]
    }

    /// How many records the log has.
    pub fn count(&self) -> usize
        ensures value { result ≡ length (records self.now) }
    {
        self.as_slice().len()
    }
}

impl<'m, T: Copy> Log<'m, T> {
    /// Puts a record at the end. Refused if the log is full, and then nothing changes.
    pub fn push(&mut self, record: T) -> Result<(), Refusal>
        ensures answer { result ≡ (push self.old «record»).0 }
        ensures records { records self.new ≡ (push self.old «record»).1 }
        ensures memory { self.new.memory.now ≡ memory_after self.old «record» }
        ensures room { room self.new ≡ room self.old }
        ensures name { self.new.memory.ghost_name ≡ self.old.memory.ghost_name }
    {
        if self.count >= self.memory.len() {
            return Err(Refusal::LogFull);
        }
        self.memory[self.count] = record;
        self.count += 1;
        Ok(())
    }

    /// The record at a place, counted from 0; none beyond the last record.
    pub fn get(&self, place: usize) -> Option<T>
        ensures value { result ≡ slice_get (records self.now) place }
    {
        self.as_slice().get(place).copied()
    }
}
