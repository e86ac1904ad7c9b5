// The text form of a script: a line for each message, with its switch and its bytes in hex.
#![tactic(auto)]

mod bytes;
pub mod entry;
mod hex;
pub mod lines;
pub mod parse;
pub mod pdu_line;
mod split;
