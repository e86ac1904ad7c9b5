// Reading OpenFlow 1.0: the message or reply that bytes are the writing of.
#![tactic(auto)]

pub mod fault;
pub mod reading;
pub mod received;
mod telling;
mod wildcards;
