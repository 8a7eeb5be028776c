//! Playing a whole script to its text.
#![tactic(auto)]

mod inside;
mod line;
mod outside;
mod player;
mod saying;
mod worked;

pub use line::Line;
pub use outside::play;
pub use worked::worked_script;
