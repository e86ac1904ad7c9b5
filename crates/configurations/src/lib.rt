// Configurations: lists of rows that all make rules, no two of which clash.
#![tactic(auto)]

pub mod configuration;
pub mod fault;
