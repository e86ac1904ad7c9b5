ghost use Rattle.std.specs.Prelude.{◌≡◌, ◌+◌, ◌≤◌, length};
ghost use Rattle.messages.specs.Sent.{sent};
ghost use Rattle.openflow.specs.Carried.{carried, message};
ghost use Rattle.openflow.specs.Frames.{contents, Grown};
ghost use Rattle.openflow.specs.Kinds.{type_number, action_number};
ghost use Rattle.openflow.specs.Layout.{be2, be4, header, match_part, command_part, act, actions_part, flow_mod, wire};

use crate::action::{ActionType, Actions};
use crate::flow_mod::FlowMod;
use crate::frame::{Frame, LONGEST};
use crate::kind::{Kind, VERSION};
use crate::pdu::Pdu;
use messages::message::Message;

impl Actions {
    // In bytes.
    fn length(self) -> u16
        ensures value { result ≡ length (actions_part self) }
        ensures short { result ≤ 16 }
    {
        match self {
            Actions::Empty => 0,
            Actions::Output(_) | Actions::SetVlan(_) => 8,
            Actions::StripOutput(_) => 16,
        }
    }
}

impl Frame {
    // One more part, after those put so far. Each put asks for room for its own part, which its caller knows.
    fn put(&mut self, part: &[u8])
        requires { self.old.length + length part.now ≤ 88 }
        ensures { Grown self.old part.now self.new }
    {
        let start = self.length;
        let end = start + part.len();
        self.bytes[start..end].copy_from_slice(part);
        self.length = end;
    }

    // One for each width, since `to_be_bytes` belongs to no trait.
    fn put_u16(&mut self, x: u16)
        requires { self.old.length + 2 ≤ 88 }
        ensures { Grown self.old (be2 x) self.new }
    {
        self.put(&x.to_be_bytes());
    }

    fn put_u32(&mut self, x: u32)
        requires { self.old.length + 4 ≤ 88 }
        ensures { Grown self.old (be4 x) self.new }
    {
        self.put(&x.to_be_bytes());
    }

    // A frame with its header, for a message of this type and length.
    fn with_header(kind: Kind, length: u16, xid: u32) -> Frame
        ensures { (contents result ≡ header (type_number kind) length xid) × (result.length ≡ 8) }
    {
        let mut frame = Frame {
            bytes: [0; LONGEST],
            length: 0,
        };
        frame.put(&[VERSION, u8::from(kind)]);
        frame.put_u16(length);
        frame.put_u32(xid);
        frame
    }

    fn put_match(&mut self, f: FlowMod)
        requires { self.old.length ≡ 8 }
        ensures { Grown self.old (match_part f) self.new }
    {
        self.put_u32(f.wildcards);
        self.put_u16(f.in_port);
        self.put(&[0; 12]);
        self.put_u16(f.vlan);
        self.put(&[0; 2]);
        self.put_u16(f.ethernet_type);
        self.put(&[0, f.protocol, 0, 0]);
        self.put_u32(f.source);
        self.put_u32(f.destination);
        self.put(&[0; 2]);
        self.put_u16(f.destination_port);
    }

    fn put_command(&mut self, f: FlowMod)
        requires { self.old.length ≡ 48 }
        ensures { Grown self.old (command_part f) self.new }
    {
        self.put(&[0; 8]);
        self.put_u16(f.command);
        self.put(&[0; 4]);
        self.put_u16(f.priority);
        self.put_u32(0xffff_ffff);
        self.put_u16(0xffff);
        self.put_u16(f.flags);
    }

    // An action of 8 bytes.
    fn put_action(&mut self, action: ActionType, value: u16)
        requires { self.old.length + 8 ≤ 88 }
        ensures { Grown self.old (act (action_number action) value) self.new }
    {
        self.put_u16(u16::from(action));
        self.put_u16(8);
        self.put_u16(value);
        self.put(&[0; 2]);
    }

    fn put_actions(&mut self, actions: Actions)
        requires { self.old.length ≡ 72 }
        ensures { Grown self.old (actions_part actions) self.new }
    {
        match actions {
            Actions::Empty => {}
            Actions::Output(port) => self.put_action(ActionType::Output, port),
            Actions::StripOutput(port) => {
                self.put_action(ActionType::StripVlan, 0);
                self.put_action(ActionType::Output, port);
            }
            Actions::SetVlan(tag) => self.put_action(ActionType::SetVlan, tag),
        }
    }

    fn flow_mod(f: FlowMod, xid: u32) -> Frame
        ensures { contents result ≡ flow_mod f xid }
    {
        let mut frame = Frame::with_header(Kind::FlowMod, 72 + f.actions.length(), xid);
        frame.put_match(f);
        frame.put_command(f);
        frame.put_actions(f.actions);
        frame
    }

    fn message(m: Message, xid: u32) -> Frame
        ensures { contents result ≡ wire (message (sent m)) xid }
    {
        match m {
            Message::Add(add) => Frame::flow_mod(FlowMod::add(add), xid),
            Message::Stamp { port, tag, .. } => Frame::flow_mod(FlowMod::stamp(port, tag), xid),
            Message::Remove { tag, .. } => Frame::flow_mod(FlowMod::remove(tag), xid),
            Message::Barrier { .. } => Frame::with_header(Kind::Barrier, 8, xid),
        }
    }

    // A message or a reply, laid out. Of two things, so no `From`; they are two arguments of `write`, and so below it.
    pub fn of(pdu: Pdu, xid: u32) -> Frame
        ensures { contents result ≡ wire (carried pdu) xid }
    {
        match pdu {
            Pdu::Message(message) => Frame::message(message, xid),
            Pdu::Reply { .. } => Frame::with_header(Kind::Reply, 8, xid),
        }
    }

    pub fn as_slice(&self) -> &[u8]
        ensures { result.now ≡ contents self.now }
    {
        &self.bytes[0..self.length]
    }
}
