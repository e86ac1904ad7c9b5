// The plan of an update: the whole series of its messages, from the version in force to a new configuration.
#![tactic(auto)]

pub mod fault;
pub mod plan;
pub mod version;
