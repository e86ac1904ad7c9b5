// Patterns over the numbers of a packet, behind one trait: `admits` and `meet`.
#![tactic(auto)]

pub mod field;
pub mod number;
pub mod pair;
pub mod pattern;
pub mod port;
pub mod prefix;
