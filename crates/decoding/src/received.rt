use openflow::pdu::Pdu;

// What was read: a message or a reply, its xid, and how many bytes it took.
#[derive(Clone, Copy, PartialEq, Eq)]
pub struct Received {
    pub pdu: Pdu,
    pub xid: u32,
    pub length: usize,
}
