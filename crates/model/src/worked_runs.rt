//! Worked runs: what they show, a bound that is reached, and what weaker tests would let happen.
ghost use Rattle.std.specs.Prelude.{◌≡◌, true, false, [], ◌∷◌, map, Some, None, Ok};
ghost use Rattle.model.specs.Test.{count};
ghost use Rattle.model.specs.WeakerTests.{Misled, SameTotal};
ghost use Rattle.model.specs.WeakerTests.{count_rounded_down, count_without_bound};
ghost use Rattle.model.specs.WeakerTests.{needs, needs_one_less, needs_without_suspension};
ghost use Rattle.model.specs.WeakerTests.{late_comer, two_ticks, waiter};
ghost use Rattle.model.specs.WorkedRuns.{Covered, counted_out, finished_early, replies, response, seen, shown, ticked};
ghost use Rattle.model.specs.WorkedRuns.{all_kinds, forced_wake, longest_response};
ghost use Rattle.model.specs.declared.call.Answer.TheVariants.{Released, Waits};

mod proved;

/// What three runs answer and show. In the first a job that waits is forced and ends at clock 3, and one that runs in
/// the meantime ends at clock 1. The second has a preemption, a forced wake, an end by count, an early finish, an idle
/// tick and refusals. Of the third the law speaks: a job released at clock 3 ends at clock 7, its bound of 4 later.
pub fn three_runs()
    ensures answers { replies forced_wake
        ≡ Ok (Released 0) ∷ Ok (Waits 0) ∷ Ok (Released 0)
        ∷ ticked (Some 1) true 0 ∷ ticked None false 1 ∷ ticked (Some 0) true 0 ∷ [] }
    ensures shows { map seen (forced_wake ∷ all_kinds ∷ longest_response ∷ [])
        ≡ (true, Some 0 ∷ None ∷ Some 1 ∷ [], counted_out 0 1 3 ∷ [], counted_out 0 1 1 ∷ [])
        ∷ (
          true,
          None ∷ Some 0 ∷ Some 1 ∷ Some 0 ∷ Some 1 ∷ [],
          counted_out 1 2 4 ∷ [],
          finished_early 1 0 2 4 4 ∷ [],
        )
        ∷ (
          true,
          Some 0 ∷ None ∷ None ∷ Some 1 ∷ None ∷ None ∷ None ∷ [],
          counted_out 3 1 7 ∷ [],
          counted_out 0 1 4 ∷ [],
        )
        ∷ [] }
    ensures reached { response ((shown longest_response).jobs 0) ≡ 4 }
    ensures covered { Covered longest_response }
{
    proved::longest_response_covered();
}

/// A test without S, with C − 1 in the place of C, without the other's bound, or that rounds down, accepts bounds
/// that a run breaks.
pub fn weaker_tests()
    ensures total { SameTotal }
    ensures suspension { Misled needs_without_suspension count waiter }
    ensures execution { Misled needs_one_less count two_ticks }
    ensures bound { Misled needs count_without_bound late_comer }
    ensures rounding { Misled needs count_rounded_down late_comer }
{
    proved::weaker_tests()
}
