// What the reader of the wire answers, as text: a line for a message, a reply or a refusal.
#![tactic(auto)]

mod added;
pub mod answer;
mod cidr;
mod fields;
mod output;
mod reading;
pub mod report;
mod wild;
