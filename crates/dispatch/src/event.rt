//! What befalls a job, and what becomes of its record.
ghost use Rattle.std.specs.Prelude.{◌≡◌, ◌<◌, true};
ghost use Rattle.dispatch.specs.Events.{bears, delayed, moved, supplied};
ghost use Rattle.model.specs.State.{in_phase};

use model::{Figures, Job, Phase};

/// What befalls an open job.
#[derive(Clone, Copy)]
pub(crate) enum Event {
    /// It suspends itself.
    Suspend,
    /// It is woken.
    Wake,
    /// It ends of itself.
    Finish,
    /// A tick passes: a ready job is given it, a waiting job waits it.
    Tick,
}

fn in_phase(job: &Job, phase: Phase) -> Job
    ensures value { result ≡ in_phase phase job.now }
{
    Job { phase, ..*job }
}

// A ready job is given a tick, and ends if that makes C.
// Not one function with the next: they count different fields, up to different figures, and lead to different phases.
fn given(job: &Job, execution: u16) -> Job
    requires more { job.now.given < execution }
    ensures value { result ≡ supplied execution job.now }
{
    let given = job.given + 1;
    let phase = if given == execution {
        Phase::Closed
    } else {
        Phase::Ready
    };
    Job {
        given,
        phase,
        ..*job
    }
}

// A waiting job waits a tick, and becomes ready by force if that makes S.
fn waited(job: &Job, suspension: u16) -> Job
    requires more { job.now.waited < suspension }
    ensures value { result ≡ delayed suspension job.now }
{
    let waited = job.waited + 1;
    let phase = if waited == suspension {
        Phase::Ready
    } else {
        Phase::Waiting
    };
    Job {
        waited,
        phase,
        ..*job
    }
}

/// What an event makes of a job.
pub(crate) fn after(job: &Job, event: Event, figures: &Figures) -> Job
    requires bears { bears figures.now event job.now ≡ true }
    ensures value { result ≡ moved figures.now event job.now }
{
    // Not a closure for each event: what an event does hangs on the phase as much as on the event.
    match (job.phase, event) {
        (Phase::Ready, Event::Suspend) => in_phase(job, Phase::Waiting),
        (Phase::Waiting, Event::Wake) => in_phase(job, Phase::Ready),
        (Phase::Ready, Event::Finish) => in_phase(job, Phase::Closed),
        (Phase::Ready, Event::Tick) => given(job, figures.execution),
        (Phase::Waiting, Event::Tick) => waited(job, figures.suspension),
        _ => *job,
    }
}
