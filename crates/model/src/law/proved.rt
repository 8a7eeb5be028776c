//! The laws, where their proofs are given.
// Not one function for each law: then its body would be empty, and no wrong body could be tried on it.
ghost use Rattle.model.specs.CountLaws.{CountLaws};
ghost use Rattle.model.specs.ProcessorLaw.{ProcessorLaw};
ghost use Rattle.model.specs.RunLaw.{RunLaw};
ghost use Rattle.model.specs.TighterLaws.{FewerLaw, YoungerLaw};

pub(crate) fn processor_law()
    ensures { ProcessorLaw }
{}

pub(crate) fn count_laws()
    ensures { CountLaws }
{}

pub(crate) fn run_law()
    ensures { RunLaw }
{}

pub(crate) fn tighter_laws()
    ensures younger { YoungerLaw → ⊥ }
    ensures fewer { FewerLaw → ⊥ }
{}
