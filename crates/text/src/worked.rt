//! A worked script.
ghost use Rattle.text.specs.Worked.{Worked};

/// What the definitions give a script of two tasks to say: the bounds, the ends of two jobs and three rows.
pub fn worked_script()
    ensures { Worked }
{}
