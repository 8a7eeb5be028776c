//! What is known of the worked runs, where the proofs are given.
// Not one function: then its body would be empty, and no wrong body could be tried on it.
ghost use Rattle.model.specs.Test.{count};
ghost use Rattle.model.specs.WeakerTests.{Misled, SameTotal};
ghost use Rattle.model.specs.WeakerTests.{count_rounded_down, count_without_bound};
ghost use Rattle.model.specs.WeakerTests.{needs, needs_one_less, needs_without_suspension};
ghost use Rattle.model.specs.WeakerTests.{late_comer, two_ticks, waiter};
ghost use Rattle.model.specs.WorkedRuns.{Covered, longest_response};

pub(crate) fn longest_response_covered()
    ensures { Covered longest_response }
{}

pub(crate) fn weaker_tests()
    ensures total { SameTotal }
    ensures suspension { Misled needs_without_suspension count waiter }
    ensures execution { Misled needs_one_less count two_ticks }
    ensures bound { Misled needs count_without_bound late_comer }
    ensures rounding { Misled needs count_rounded_down late_comer }
{}
