//! What is proved about every run of the machine.
ghost use Rattle.model.specs.CountLaws.{CountLaws};
ghost use Rattle.model.specs.ProcessorLaw.{ProcessorLaw};
ghost use Rattle.model.specs.RunLaw.{RunLaw};
ghost use Rattle.model.specs.TighterLaws.{FewerLaw, YoungerLaw};

mod proved;

/// Under a lawful order the job with the processor is ready and goes before every other ready job, and no job
/// has it only if none is ready.
pub fn processor_law()
    ensures { ProcessorLaw }
{
    proved::processor_law()
}

/// What the argument uses of the count of another task's jobs.
pub fn count_laws()
    ensures { CountLaws }
{
    proved::count_laws()
}

/// Whatever calls arrive, a run of tasks whose bounds are a warrant keeps its promises: every job ends within its
/// bound, is given exactly what it was admitted with, and no task gets more than its share of any stretch of time.
pub fn run_law()
    ensures { RunLaw }
{
    proved::run_law()
}

/// The run law cannot be made tighter: neither by a tick in the age of open jobs nor by a job in a window.
pub fn tighter_laws()
    ensures younger { YoungerLaw → ⊥ }
    ensures fewer { FewerLaw → ⊥ }
{
    proved::tighter_laws()
}
