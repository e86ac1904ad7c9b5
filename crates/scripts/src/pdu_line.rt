ghost use Rattle.std.specs.Prelude.{Some};
ghost use Rattle.openflow.specs.Carried.{carried, switch_at};
ghost use Rattle.openflow.specs.Layout.{wire};
ghost use Rattle.scripts.specs.Texts.{entry_text};

use crate::entry::Entry;
use openflow::frame::LONGEST;
use openflow::pdu::Pdu;
use openflow::writing::write;
use std::fmt;

// A message or a reply as a line of a script.
#[derive(Clone, Copy)]
pub struct PduLine {
    pub pdu: Pdu,
    pub xid: u32,
}

impl fmt::Display for PduLine {
    ghost output = { λ l. Some (entry_text (switch_at (carried l.pdu)) (wire (carried l.pdu) l.xid)) };

    #[tactic(auto, using(openflow::proofs::Written::written_front))]
    fn fmt<W: fmt::Write>(&self, f: &mut fmt::Formatter<W>) -> fmt::Result {
        // Through `write`, as any client of the wire; 88 bytes on the stack, since nothing here allocates.
        let mut buffer = [0u8; LONGEST];
        let length = write(self.pdu, self.xid, &mut buffer).unwrap();
        let entry = Entry {
            switch: self.pdu.switch().number(),
            bytes: &buffer[..length],
        };
        write!(f, "{entry}")
    }
}
