//! What is proved about the verdicts of the test.
ghost use Rattle.admission.specs.Verdicts.{Right, Verdict};

/// For all tasks that fit, with a point for each, there is a right answer: one verdict is right for them all.
pub fn verdicts_exist()
    ensures { (v : Verdict) × Right v }
{}
