//! What the library means: the words that every other crate speaks in, their definitions in `specs/`,
//! and what is proved about the definitions.
#![tactic(auto)]

mod call;
mod figures;
mod job;
mod law;
mod refusal;
mod worked;
mod worked_runs;

pub use call::{Answer, Call, Ended, Ticked};
pub use figures::Figures;
pub use job::{Job, JobId, Phase};
pub use law::{count_laws, processor_law, run_law, tighter_laws};
pub use refusal::Refusal;
pub use worked::worked_sets;
pub use worked_runs::{three_runs, weaker_tests};
