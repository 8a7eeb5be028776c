//! The lines that a script says.
ghost use Rattle.std.specs.Prelude.{◌≡◌, Some};
ghost use Rattle.text.specs.Lines.{line};
ghost use Rattle.text.specs.declared.line.Line.TheVariants.{End, Run};

use model::Refusal;
use script::{Cause, EndRecord, Stretch};
use std::fmt;

/// A line of the text that a script is played to.
#[derive(Clone, Copy)]
pub enum Line {
    /// A command or a record was refused.
    Refused(Refusal),
    /// A started task: its number, its bound and its offset.
    Bound(u32, u16, u16),
    /// The end of a job.
    End(EndRecord),
    /// A row of ticks.
    Run(Stretch),
}

impl From<EndRecord> for Line {
    ghost from_gives = { λ end line. line ≡ End end };

    fn from(end: EndRecord) -> Line {
        Line::End(end)
    }
}

impl From<Stretch> for Line {
    ghost from_gives = { λ stretch line. line ≡ Run stretch };

    fn from(stretch: Stretch) -> Line {
        Line::Run(stretch)
    }
}

impl fmt::Display for Line {
    ghost output = { λ l. Some (line l) };

    fn fmt<W: fmt::Write>(&self, f: &mut fmt::Formatter<W>) -> fmt::Result {
        match *self {
            Line::Refused(refusal) => {
                let number = refusal.number();
                write!(f, "refused {number}")
            }
            Line::Bound(task, bound, offset) => write!(f, "bound {task} {bound} {offset}"),
            Line::End(
                EndRecord {
                    task,
                    release,
                    end,
                    given,
                    cause,
                },
            ) => {
                let mark = match cause {
                    Cause::Finish => "F",
                    Cause::Count => "C",
                };
                write!(f, "end {task} {release} {end} {given} {mark}")
            }
            Line::Run(
                Stretch {
                    task: Some(task),
                    first,
                    ticks,
                },
            ) => write!(f, "run {task} {first} {ticks}"),
            Line::Run(
                Stretch {
                    task: None,
                    first,
                    ticks,
                },
            ) => write!(f, "run - {first} {ticks}"),
        }
    }
}
