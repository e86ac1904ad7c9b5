ghost use Rattle.std.specs.Prelude.{Some};
ghost use Rattle.answers.specs.Texts.{received_text};
ghost use Rattle.openflow.specs.Carried.{carried};

use crate::added::Added;
use decoding::received::Received;
use messages::message::Message;
use openflow::pdu::Pdu;
use std::fmt;

// What was read: its kind, and its numbers by name.
#[derive(Clone, Copy)]
pub struct Reading(pub Received);

impl fmt::Display for Reading {
    ghost output = { λ r. Some (received_text r.0.xid r.0.length (carried r.0.pdu)) };

    fn fmt<W: fmt::Write>(&self, f: &mut fmt::Formatter<W>) -> fmt::Result {
        let Received { pdu, xid, length } = self.0;
        match pdu {
            Pdu::Message(Message::Add(add)) => {
                write!(f, "add xid={xid} {} length={length}", Added(add))
            }
            Pdu::Message(Message::Stamp { port, tag, .. }) => {
                write!(
                    f,
                    "stamp xid={xid} port={} tag={} length={length}",
                    port.number(),
                    tag.number()
                )
            }
            Pdu::Message(Message::Remove { tag, .. }) => {
                write!(f, "remove xid={xid} tag={} length={length}", tag.number())
            }
            Pdu::Message(Message::Barrier { .. }) => {
                write!(f, "barrier xid={xid} length={length}")
            }
            Pdu::Reply { .. } => write!(f, "reply xid={xid} length={length}"),
        }
    }
}
