//! A script that is played.
use script::Reader;

/// What is left of a script to read, and the text that it has said.
#[derive(Drop)]
pub(crate) struct Player<'b> {
    pub(crate) reader: Reader<'b>,
    pub(crate) text: String,
}
