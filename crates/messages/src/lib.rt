// The messages of an update, each to one switch.
#![tactic(auto)]

pub mod add;
pub mod line;
pub mod message;
