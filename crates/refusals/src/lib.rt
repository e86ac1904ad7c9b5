// Refusals: what every error of the product has in common.
#![tactic(auto)]

pub mod refusal;
pub mod refused;
