//! The worked sets.
ghost use Rattle.model.specs.Worked.{AllAnswered, sets};

/// Holds what is proved of eight small sets of tasks: six with their smallest bounds and offsets, and two for which no
/// bounds hold.
pub fn worked_sets()
    ensures answers { AllAnswered sets }
{}
