//! Reading the commands of a script one by one.
ghost use Rattle.std.specs.Prelude.{◌≡◌, ◌<◌, ◌≤◌, [], ◌∷◌, length, IfSome, MatchOption, OnSome, ⊤};
ghost use Rattle.std.specs.Iterator.{MakesProgress, YieldsFirst, item_count};
ghost use Rattle.script.specs.Commands.{Fair, items};
ghost use Rattle.script.specs.Reads.{Taken};

use crate::command::Command;
use model::{Call, Figures, Refusal};
use rules::Choice;

/// A script of which some commands are read.
#[derive(Clone, Copy)]
pub struct Reader<'b> {
    rest: &'b [u8],
}

impl<'b> Reader<'b> {
    /// The script before its first command.
    pub fn new(script: &'b [u8]) -> Reader<'b>
        ensures value { result.rest.now ≡ script.now }
    {
        Reader { rest: script }
    }

    // The operands that stand in front. Where they are cut off, the script is read no further.
    fn operands<const N: usize>(&mut self) -> Result<[u8; N], Refusal>
        ensures taken { Taken N self.old.rest.now result self.new.rest.now }
    {
        let Some((operands, rest)) = self.rest.split_first_chunk() else {
            self.rest = &[];
            return Err(Refusal::OperandsCutOff);
        };
        self.rest = rest;
        Ok(*operands)
    }

    // The command of a byte, with its operands. After an unknown command the script is read no further.
    fn command(&mut self, byte: u8) -> Result<Command, Refusal>
        ensures items { items (byte ∷ self.old.rest.now) ≡ result ∷ items self.new.rest.now }
        ensures fair { Fair result }
        ensures no_longer { length self.new.rest.now ≤ length self.old.rest.now }
    {
        // Not an enum of codes: it would name the commands a second time, and each byte stands once, in this match.
        match byte {
            0x01 => Ok(Command::Task(Figures::from(self.operands()?))),
            0x02 => Ok(Command::Rule(Choice::try_from(self.operands()?)?)),
            0x03 => Ok(Command::Start),
            0x10 => {
                let [task] = self.operands::<1>()?;
                Ok(Command::Call(Call::Release(task.into())))
            }
            0x11 => Ok(Command::Call(Call::Wait)),
            0x12 => {
                let [task] = self.operands::<1>()?;
                Ok(Command::Call(Call::Wake(task.into())))
            }
            0x13 => Ok(Command::Call(Call::Finish)),
            0x14 => Ok(Command::Call(Call::Tick)),
            0x1F => Ok(Command::Close),
            _ => {
                self.rest = &[];
                Err(Refusal::UnknownCommand)
            }
        }
    }
}

impl Iterator for Reader<'_> {
    type Item = Result<Command, Refusal>;

    ghost next_gives = { YieldsFirst (λ r. items r.rest.now) };

    ghost remaining = { item_count (λ r. items r.rest.now) };

    /// The next command, or why none can be read: an unknown command, operands that are cut off, a kind or weight of
    /// rule that does not exist. After the first two the script is read no further. `None` at the end of the script.
    fn next(&mut self) -> Option<Result<Command, Refusal>>
        ensures steps { YieldsFirst (λ r. items r.rest.now) self.old result self.new }
        ensures goes { MakesProgress (λ _. ⊤) (item_count (λ r. items r.rest.now)) self.old result self.new }
        ensures items { MatchOption result (items self.old.rest.now ≡ [])
            (λ i. items self.old.rest.now ≡ i ∷ items self.new.rest.now) }
        ensures fair { IfSome result Fair }
        ensures shorter { OnSome result (length self.new.rest.now
            < length self.old.rest.now) }
    {
        let (byte, rest) = self.rest.split_first()?;
        self.rest = rest;
        Some(self.command(*byte))
    }
}
