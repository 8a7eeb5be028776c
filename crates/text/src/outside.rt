//! The commands outside of a run, and what they say.
ghost use Rattle.std.specs.Prelude.{◌≡◌, ◌++◌, IfOk, string_bytes, OnOk};
ghost use Rattle.admission.specs.Verdicts.{Right, Verdict};
ghost use Rattle.admission.specs.Views.{bounds_of, offsets_of, tasks_of};
ghost use Rattle.dispatch.specs.Runs.{Agree};
ghost use Rattle.rules.specs.Choices.{Light, chosen_before, chosen_point};
ghost use Rattle.script.specs.Commands.{Fair};
ghost use Rattle.script.specs.Sessions.{opened};
ghost use Rattle.script.specs.Setups.{empty};
ghost use Rattle.script.specs.Views.{desk};
ghost use Rattle.tasks.specs.Listed.{listed};
ghost use Rattle.text.specs.Playing.{Heard, Says, Tried, left};
ghost use Rattle.text.specs.Spoken.{bound_lines, heard, inside, text as script_text};

use crate::inside::Play;
use crate::line::Line;
use crate::player::Player;
use crate::saying::{say, say_bounds, say_report};
use admission::{Accepted, admit};
use dispatch::Checked;
use model::Refusal;
use rules::{Bottom, Figure, OrderRule, Weighted};
use script::{Command, Entered, NO_END, NO_STRETCH, RECORDS, Reader, Setup};
use std::alloc::{AllocError, Global};
use tasks::Table;

/// What a script has entered. Its choice of rule was read from the script, so the weights are in their range.
#[derive(Drop)]
struct Entering {
    setup: Setup,
    ghost light: { Light setup.choice },
}

impl Player<'_> {
    // Starts a run with two empty logs, and plays it to its end.
    fn play_checked<R: OrderRule>(&mut self, checked: Checked<'_, R>) -> Result<(), AllocError>
        ensures said { OnOk result (Says self.old self.new (inside
            (tasks_of checked.entry.set.now) (R.OrderRule.before checked.entry.rule.now) opened
            (left self.old))) }
    {
        let mut ends = [NO_END; RECORDS];
        let mut stretches = [NO_STRETCH; RECORDS];
        let mut run = Play::start(checked, &mut ends, &mut stretches);
        let Player { reader, text } = self;
        for item in reader {
            if run.step(item, text)? {
                break;
            }
        }
        let Play { recording } = run;
        say_report(text, &recording.close())
    }

    // Says the bounds of a set that was tested under this rule, and plays the run.
    fn play_set<R: OrderRule>(&mut self, set: &Accepted, rule: &R) -> Result<(), AllocError>
        requires agree { Agree set.now (R.OrderRule.points rule.now) }
        ensures said { OnOk result (Says self.old self.new
            (bound_lines 0 (bounds_of set.now) (offsets_of set.now)
            ++ inside (tasks_of set.now) (R.OrderRule.before rule.now) opened (left self.old))) }
    {
        say_bounds(&mut self.text, set)?;
        let Ok(checked) = Checked::check(set, rule) else {
            unreachable!()
        };
        self.play_checked(checked)
    }

    // Tests a table under a rule, and plays the run if it passes. Answers whether it did.
    // Not a `ControlFlow`: whether a run was played is all that is asked, here and in the callers.
    fn test<R: OrderRule>(&mut self, table: &Table, rule: &R) -> Result<bool, AllocError>
        ensures tried { IfOk result (Tried (listed table.now) (R.OrderRule.points rule.now)
            (R.OrderRule.before rule.now) self.old self.new) }
    {
        let mut set = Accepted::new();
        match admit(table, rule, &mut set) {
            Ok(()) => {
                self.play_set(&set, rule)?;
                Ok(true)
            }
            Err(refusal) => {
                say(&mut self.text, Line::Refused(refusal))?;
                Ok(false)
            }
        }
    }
}

impl Entering {
    // Nothing is entered.
    fn new() -> Entering
        ensures value { desk result.setup ≡ empty }
    {
        Entering {
            setup: Setup::new(),
        }
    }

    // Tests the table under the rule that was chosen, and plays the run if it passes. Answers whether it did.
    fn start(&self, player: &mut Player<'_>) -> Result<bool, AllocError>
        ensures tried { IfOk result (Tried (desk self.now.setup).tasks
            (chosen_point (desk self.now.setup).choice (desk self.now.setup).tasks)
            (chosen_before (desk self.now.setup).choice (desk self.now.setup).tasks)
            player.old player.new) }
    {
        let table = self.setup.table();
        let choice = self.setup.choice();
        // Not a function that makes the rule: a layer borrows the rule below it, so what stacks them must use them too.
        let bottom = Bottom::new(choice.kind, table);
        let Ok(middle) = Weighted::over(table, Figure::Execution, choice.execution, &bottom) else {
            unreachable!()
        };
        let Ok(rule) = Weighted::over(table, Figure::Suspension, choice.suspension, &middle) else {
            unreachable!()
        };
        player.test(table, &rule)
    }

    // Carries out what was read.
    // Not a type of items: the reader gives plain results, and only these two functions ask whether one is fair.
    fn hear(&mut self, item: Result<Command, Refusal>) -> Result<Entered, Refusal>
        requires fair { Fair item }
        ensures answer { result ≡ (heard item (desk self.old.setup)).0 }
        ensures state { desk self.new.setup ≡ (heard item (desk self.old.setup)).1 }
    {
        self.setup.step(item?)
    }

    // Carries out what was read, and says what it answers. Answers whether a run was played.
    fn step(
        &mut self,
        item: Result<Command, Refusal>,
        player: &mut Player<'_>,
    ) -> Result<bool, AllocError>
        requires fair { Fair item }
        ensures said { IfOk result (Heard item (desk self.old.setup) (desk self.new.setup)
            player.old player.new) }
    {
        match self.hear(item) {
            Ok(Entered::Stored) => Ok(false),
            Ok(Entered::Starts) => self.start(player),
            Err(refusal) => {
                say(&mut player.text, Line::Refused(refusal))?;
                Ok(false)
            }
        }
    }
}

/// The text of a script: every line that its commands say, in their order, each ended by byte 0A. Want of memory is the
/// only other answer.
pub fn play(heap: Global, script: &[u8]) -> Result<String, AllocError>
    ensures text { IfOk result (λ t. (verdict : Verdict) → Right verdict
        → string_bytes t ≡ script_text verdict script.now) }
{
    let mut player = Player {
        reader: Reader::new(script),
        text: String::new(heap),
    };
    let mut entering = Entering::new();
    // Not a `for` over the reader: an item that starts a run lends the reader to it.
    while let Some(item) = player.reader.next() {
        if entering.step(item, &mut player)? {
            return Ok(player.text);
        }
    }
    Ok(player.text)
}
