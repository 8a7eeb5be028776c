//! The admission test for hosts in C: a table, a rule and a result as bytes.
#![tactic(auto)]

ghost use Rattle.std.specs.Prelude.{◌≡◌, true, [], ◌∷◌};
ghost use Rattle.admission.specs.Tested.{Tested};
ghost use Rattle.model.specs.Checks.{question};
ghost use Rattle.model.specs.Rules.{allowed};
ghost use Rattle.model.specs.declared.refusal.Refusal.TheVariants.{WrongLength};
ghost use Rattle.tasks.specs.Listed.{listed};
ghost use Rattle.host.specs.Answered.{Answered, chosen_points, code};
ghost use Rattle.host.specs.Checked.{wrong_length};
ghost use Rattle.host.specs.Determined.{Determined};

use admission::{Accepted, admit};
use model::Refusal;
use reading::{ROW, enter};
use rules::{Bottom, Choice, Figure, Weighted};
use tasks::Table;
use writing::{ANSWER, write_answers};

mod reading;
mod writing;

// Refuses a table whose length is no multiple of 8, and a result with too little room for the answers.
fn check_lengths(table: &[u8], room: usize) -> Result<(), Refusal>
    ensures answer { result ≡ question ((wrong_length table.now room, WrongLength) ∷ []) tt }
{
    if !table.len().is_multiple_of(ROW) || room < table.len() / ROW * ANSWER {
        return Err(Refusal::WrongLength);
    }
    Ok(())
}

// Tests a table under the chosen rule: the S-weight over the C-weight over the kind.
fn test(table: &Table, choice: Choice, place: &mut Accepted) -> Result<(), Refusal>
    requires execution { allowed choice.execution ≡ true }
    requires suspension { allowed choice.suspension ≡ true }
    ensures verdict { Tested (listed table.now) (chosen_points choice (listed table.now))
        place.old place.new result }
{
    // Not a function that makes the rule: a layer borrows the rule below it, so what stacks them must use them too.
    let bottom = Bottom::new(choice.kind, table);
    let middle = Weighted::over(table, Figure::Execution, choice.execution, &bottom)?;
    let rule = Weighted::over(table, Figure::Suspension, choice.suspension, &middle)?;
    admit(table, &rule, place)
}

// The call, with a refusal in the place of its number.
fn answer(table: &[u8], rule: [u8; 3], res: &mut [u8]) -> Result<(), Refusal>
    ensures answer { Answered table.now rule res.old res.new (code result) }
{
    check_lengths(table, res.len())?;
    let choice = Choice::try_from(rule)?;
    let entered = enter(table)?;
    let mut place = Accepted::new();
    test(&entered, choice, &mut place)?;
    write_answers(&place, res);
    Ok(())
}

/// Tests a table of tasks under a rule. The table has 8 bytes for each task: C, S, D, T, 2 bytes each, low byte first.
/// The rule bytes are the kind (0 deadline, 1 arrival, 2 level), the C-weight and the S-weight in two's complement.
///
/// Answers 0 if bounds hold for all tasks: then the result begins with 4 bytes for each task, its bound and its
/// offset, 2 bytes each, low byte first, and the bytes behind them are as they were. Else answers the number of a
/// refusal, and the result is as it was. In this order: 17, the table's length is no multiple of 8 or the result has
/// fewer than 4 bytes for each task; 15, the kind is above 2 or a weight outside −16 … 16; 1, more than 32 tasks; for
/// one task after the other 2, C is 0, and 3, D is 0 or above T; 4, no bounds hold.
#[unsafe(no_mangle)]
pub extern "C" fn moshgeti_admit(table: &[u8], rule: &[u8; 3], res: &mut [u8]) -> u32
    ensures answer { Answered table.now rule.now res.old
        res.new result }
{
    // Not a Result: a host in C sees a number.
    match answer(table, *rule, res) {
        Ok(()) => 0,
        Err(refusal) => u32::from(refusal.number()),
    }
}

/// Table, rule and result bytes determine what a call answers and every byte that it leaves.
pub fn determined()
    ensures { Determined }
{}
