// Topologies: the switches of a site, their edge ports and the links between them.
#![tactic(auto)]

pub mod fault;
pub mod spot;
pub mod topology;
