//! What is proved about the records of every session.
ghost use Rattle.script.specs.RecordLaw.{RecordLaw};

/// Whatever calls arrive, the end records of a session are exactly the ended jobs of the run's transcript in the order
/// of their ends, and its stretches, written out, exactly the list of its ticks, unless a log was full.
pub fn record_law()
    ensures { RecordLaw }
{}
