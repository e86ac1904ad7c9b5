ghost use Rattle.std.specs.Prelude.{◌≡◌, ℕ, ◌+◌, ◌≤◌, length, IfSome, IfOk, Some};
ghost use Rattle.std.specs.Result.{result_err};
ghost use Rattle.openflow.specs.declared.pdu.Pdu.{Pdu};
ghost use Rattle.openflow.specs.Carried.{carried, switch_at};
ghost use Rattle.decoding.specs.Families.{RoundTrip};
ghost use Rattle.openflow.specs.Kinds.{type_number};
ghost use Rattle.decoding.specs.Offsets.{at1, at2, at4};
ghost use Rattle.decoding.specs.Reading.{switch_fault, Writing, Reads, openflow10};

use crate::fault::ReadFault;
use crate::received::Received;
use header::{Header, check_header};
use messages::message::Message;
use openflow::frame::Frame;
use openflow::kind::Kind;
use openflow::pdu::Pdu;
use rules::switch::Switch;

mod fields;
mod header;

fn check_switch(number: u8) -> Result<Switch, ReadFault>
    ensures refusal { result_err result ≡ switch_fault number }
    ensures value { IfOk result (λ s. s.number ≡ number) }
{
    Switch::new(number).ok_or(ReadFault::Switch(number))
}

// One for each width, since `from_be_bytes` belongs to no trait.
fn u16_at(bytes: &[u8], at: usize) -> u16
    requires { at + 2 ≤ length bytes.now }
    ensures { result ≡ at2 bytes.now at }
{
    u16::from_be_bytes([bytes[at], bytes[at + 1]])
}

fn u32_at(bytes: &[u8], at: usize) -> u32
    requires { at + 4 ≤ length bytes.now }
    ensures { result ≡ at4 bytes.now at }
{
    u32::from_be_bytes([bytes[at], bytes[at + 1], bytes[at + 2], bytes[at + 3]])
}

// The message or reply of this type whose writing these bytes are. Other bytes may give one too: its writing will differ.
// The switch and the bytes stay two arguments, as they are of `read`.
fn candidate(kind: Kind, switch: Switch, bytes: &[u8]) -> Option<Pdu>
    requires { type_number kind ≡ at1 bytes.now 1 }
    ensures told { (p : Pdu) (xid : ℕ) → Writing switch.number bytes.now p xid → result ≡ Some p }
    ensures to { IfSome result (λ p. switch_at (carried p) ≡ switch.number) }
{
    match kind {
        Kind::FlowMod => Some(Pdu::Message(fields::flow_mod(switch, bytes)?)),
        Kind::Barrier => Some(Pdu::Message(Message::Barrier { switch })),
        Kind::Reply => Some(Pdu::Reply { switch }),
    }
}

// Reads a message to this switch, or a reply from it, off the start of the bytes.
pub fn read(switch: u8, bytes: &[u8]) -> Result<Received, ReadFault>
    ensures answer { Reads switch bytes.now result }
    ensures law { RoundTrip openflow10 }
{
    let switch = check_switch(switch)?;
    let Header { kind, length, xid } = check_header(bytes)?;
    let whole = &bytes[0..length];
    let pdu = candidate(kind, switch, whole).ok_or(ReadFault::NoWriting)?;
    let frame = Frame::of(pdu, xid);
    if frame.as_slice() != whole {
        return Err(ReadFault::NoWriting);
    }
    Ok(Received { pdu, xid, length })
}
