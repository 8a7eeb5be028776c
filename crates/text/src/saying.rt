//! Lines at the end of a text.
ghost use Rattle.std.specs.Prelude.{◌≡◌, [], ◌∷◌, ◌++◌, map, string_bytes, OnOk};
ghost use Rattle.admission.specs.Views.{bounds_of, offsets_of};
ghost use Rattle.record_log.specs.Records.{records};
ghost use Rattle.text.specs.Lines.{printed};
ghost use Rattle.text.specs.Playing.{Makes};
ghost use Rattle.text.specs.Spoken.{bound_lines, loss, losses, report_of};
ghost use Rattle.text.specs.declared.line.Line.{Line};

use crate::line::Line;
use admission::Accepted;
use model::Refusal;
use record_log::Log;
use script::{Lost, Report};
use std::alloc::AllocError;

/// Says a line.
// Not a type of texts: a `String` is handed out in the end, and each function here says lines of its own.
pub(crate) fn say(text: &mut String, line: Line) -> Result<(), AllocError>
    ensures bytes { OnOk result (string_bytes text.new
        ≡ string_bytes text.old ++ printed (line ∷ [])) }
{
    writeln!(text, "{line}")
}

/// Says that a record is lost, if it is.
pub(crate) fn say_loss(text: &mut String, lost: bool) -> Result<(), AllocError>
    ensures bytes { OnOk result (string_bytes text.new
        ≡ string_bytes text.old ++ printed (loss lost)) }
{
    if lost {
        say(text, Line::Refused(Refusal::LogFull))?;
    }
    Ok(())
}

/// Says which records of a call are lost.
#[tactic(auto, using(crate::proofs::Printed::said_last))]
pub(crate) fn say_losses(text: &mut String, lost: Lost) -> Result<(), AllocError>
    ensures bytes { OnOk result (string_bytes text.new
        ≡ string_bytes text.old ++ printed (losses lost)) }
{
    say_loss(text, lost.end)?;
    say_loss(text, lost.row)
}

/// Says the bound and the offset of every task.
pub(crate) fn say_bounds(text: &mut String, set: &Accepted) -> Result<(), AllocError>
    ensures bytes { OnOk result (string_bytes text.new
        ≡ string_bytes text.old ++ printed (bound_lines 0 (bounds_of set.now) (offsets_of set.now))) }
{
    for (task, row) in set.as_slice().iter().enumerate() {
        say(text, Line::Bound(task as u32, row.bound, row.offset))?;
    }
    Ok(())
}

/// Says every record of a log.
pub(crate) fn say_records<T: Copy + Into<Line>>(
    text: &mut String,
    log: &Log<'_, T>,
) -> Result<(), AllocError>
    ensures bytes { (line : T → Line) → Makes T.converts line → OnOk result (string_bytes text.new
        ≡ string_bytes text.old ++ printed (map line (records log.now))) }
{
    for record in log.as_slice() {
        say(text, (*record).into())?;
    }
    Ok(())
}

/// Says the report of a closed run.
pub(crate) fn say_report(text: &mut String, report: &Report<'_>) -> Result<(), AllocError>
    ensures bytes { OnOk result (string_bytes text.new ≡ string_bytes text.old ++ printed
        (report_of report.now.closed.lost (records report.now.ends) (records report.now.stretches))) }
{
    say_loss(text, report.closed.lost)?;
    say_records(text, &report.ends)?;
    say_records(text, &report.stretches)
}
