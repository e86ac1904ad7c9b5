ghost use Rattle.std.specs.Prelude.{◌≡◌};
ghost use Rattle.openflow.specs.Fields.{open_bit, wildcards_of, add_actions, add_fields, stamp_fields, remove_fields};

use crate::action::Actions;
use messages::add::Add;
use patterns::port::Port;
use rules::row::{Action, PatternRow};
use rules::tag::Tag;

// The fields in which flow-mods differ, in the order in which they lie; an open value is zero.
#[derive(Clone, Copy, PartialEq, Eq)]
pub struct FlowMod {
    pub wildcards: u32,
    pub in_port: u16,
    pub vlan: u16,
    pub ethernet_type: u16,
    pub protocol: u8,
    pub source: u32,
    pub destination: u32,
    pub destination_port: u16,
    // A number, since reading takes it off before it knows that it is a command of ours.
    pub command: u16,
    pub priority: u16,
    pub flags: u16,
    pub actions: Actions,
}

// The numbers below are the layout's, written where its tables have them.

// The fields of which a message says nothing.
const BLANK: FlowMod = FlowMod {
    wildcards: 0,
    in_port: 0,
    vlan: 0,
    ethernet_type: 0,
    protocol: 0,
    source: 0,
    destination: 0,
    destination_port: 0,
    command: 0,
    priority: 0,
    flags: 0,
    actions: Actions::Empty,
};

// What an open pattern adds to the wildcards.
fn open_bit<T: Drop>(pattern: Option<T>, bit: u32) -> u32
    ensures { result ≡ open_bit pattern bit }
{
    if pattern.is_none() { bit } else { 0 }
}

fn wildcards(pattern: PatternRow) -> u32
    ensures { result ≡ wildcards_of pattern }
{
    let source = 32u32.saturating_sub(u32::from(pattern.source.length));
    let destination = 32u32.saturating_sub(u32::from(pattern.destination.length));
    0x0030_004c
        + open_bit(pattern.in_port, 0x01)
        + open_bit(pattern.protocol, 0x20)
        + open_bit(pattern.destination_port, 0x80)
        + source * 0x100
        + destination * 0x4000
}

fn add_actions(action: Action, strip: bool) -> Actions
    ensures { result ≡ add_actions action strip }
{
    match action {
        Action::Drop => Actions::Empty,
        Action::Out(port) if strip => Actions::StripOutput(u16::from(port)),
        Action::Out(port) => Actions::Output(u16::from(port)),
    }
}

// Made by name, side by side: a stamp is of two things, and `From<Tag>` would not say that it makes a remove.
impl FlowMod {
    pub fn add(add: Add) -> FlowMod
        ensures { result ≡ add_fields add.tag.number add.rule.row add.strip }
    {
        let row = add.rule().row();
        let pattern = row.pattern;
        FlowMod {
            wildcards: wildcards(pattern),
            in_port: u16::from(pattern.in_port.unwrap_or(0)),
            vlan: add.tag().number(),
            ethernet_type: 0x0800,
            protocol: pattern.protocol.unwrap_or(0),
            source: pattern.source.address,
            destination: pattern.destination.address,
            destination_port: pattern.destination_port.unwrap_or(0),
            command: 0,
            priority: row.priority,
            flags: 2,
            actions: add_actions(row.action, add.strip()),
        }
    }

    pub fn stamp(port: Port, tag: Tag) -> FlowMod
        ensures { result ≡ stamp_fields port.number tag.number }
    {
        FlowMod {
            wildcards: 0x003f_fffc,
            in_port: u16::from(port.number()),
            vlan: 0xffff,
            priority: 65_535,
            actions: Actions::SetVlan(tag.number()),
            ..BLANK
        }
    }

    pub fn remove(tag: Tag) -> FlowMod
        ensures { result ≡ remove_fields tag.number }
    {
        FlowMod {
            wildcards: 0x003f_fffd,
            vlan: tag.number(),
            command: 3,
            ..BLANK
        }
    }
}
