// Flow rules and version tags within their limits, and the plain rows in which rules lie in lists and tables.
#![tactic(auto)]

pub mod fault;
pub mod header;
pub mod row;
pub mod rule;
pub mod switch;
pub mod tag;
