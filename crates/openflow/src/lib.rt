// OpenFlow 1.0 on the wire: the layout of messages and replies, and writing them.
#![tactic(auto)]

pub mod action;
pub mod fault;
pub mod flow_mod;
pub mod frame;
pub mod kind;
pub mod pdu;
pub mod writing;
