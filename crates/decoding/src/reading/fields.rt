ghost use Rattle.std.specs.Prelude.{◌≡◌, ◌≤◌, length, IfSome, Some};
ghost use Rattle.messages.specs.Sent.{sent, switch_of};
ghost use Rattle.messages.specs.declared.message.Message.{Message};
ghost use Rattle.openflow.specs.Fields.{HasFields};
ghost use Rattle.decoding.specs.Offsets.{actions_at, fields_at};

use crate::reading::{u16_at, u32_at};
use crate::telling::Addressed;
use messages::message::Message;
use openflow::action::{ActionType, Actions};
use openflow::flow_mod::FlowMod;
use rules::switch::Switch;

// Where the fields lie.
const WILDCARDS: usize = 8;

const IN_PORT: usize = 12;

const VLAN: usize = 26;

const ETHERNET_TYPE: usize = 30;

const PROTOCOL: usize = 33;

const SOURCE: usize = 36;

const DESTINATION: usize = 40;

const DESTINATION_PORT: usize = 46;

const COMMAND: usize = 56;

const PRIORITY: usize = 62;

const FLAGS: usize = 70;

const ACTIONS: usize = 72;

// The actions, by how many bytes they take. Other bytes than an action list's give some list too.
fn actions(bytes: &[u8]) -> Actions
    requires { 72 ≤ length bytes.now }
    ensures { result ≡ actions_at bytes.now }
{
    match bytes.len() {
        0..80 => Actions::Empty,
        80..88 if u16_at(bytes, ACTIONS) == u16::from(ActionType::SetVlan) => Actions::SetVlan(
            u16_at(bytes, ACTIONS + 4),
        ),
        80..88 => Actions::Output(u16_at(bytes, ACTIONS + 4)),
        _ => Actions::StripOutput(u16_at(bytes, ACTIONS + 12)),
    }
}

// The fields that stand in the bytes, whatever else stands there. `flow_mod` tests the length for this and for the actions.
fn parse(bytes: &[u8]) -> FlowMod
    requires { 72 ≤ length bytes.now }
    ensures { result ≡ fields_at bytes.now }
{
    FlowMod {
        wildcards: u32_at(bytes, WILDCARDS),
        in_port: u16_at(bytes, IN_PORT),
        vlan: u16_at(bytes, VLAN),
        ethernet_type: u16_at(bytes, ETHERNET_TYPE),
        protocol: bytes[PROTOCOL],
        source: u32_at(bytes, SOURCE),
        destination: u32_at(bytes, DESTINATION),
        destination_port: u16_at(bytes, DESTINATION_PORT),
        command: u16_at(bytes, COMMAND),
        priority: u16_at(bytes, PRIORITY),
        flags: u16_at(bytes, FLAGS),
        actions: actions(bytes),
    }
}

// The flow-mod whose writing these bytes are. Other bytes may give one too: its writing will differ.
pub fn flow_mod(switch: Switch, bytes: &[u8]) -> Option<Message>
    ensures told { (m : Message) → switch_of (sent m) ≡ switch.number → 72 ≤ length bytes.now → HasFields (sent m) (fields_at bytes.now) → result ≡ Some m }
    ensures to { IfSome result (λ m. switch_of (sent m) ≡ switch.number) }
{
    if bytes.len() < 72 {
        return None;
    }
    Addressed {
        fields: parse(bytes),
        switch,
    }
    .message()
}
