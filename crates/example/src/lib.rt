// The example site, and worked cases under the definitions.
#![tactic(auto)]

pub mod cases;
pub mod fault;
pub mod planning;
pub mod site;
