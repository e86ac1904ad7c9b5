ghost use Rattle.std.specs.Prelude.{Some};
ghost use Rattle.scripts.specs.Printed.{EntriesReturn, ScriptsReturn};
ghost use Rattle.scripts.specs.Texts.{entry_text};

use crate::bytes::Bytes;
use std::fmt;

// A line of a script: the bytes of a message, a `Vec` where they were read and a slice to be printed,
// and the switch that it goes to.
#[derive(Clone, Copy, Drop)]
pub struct Entry<B> {
    pub switch: u8,
    pub bytes: B,
}

impl fmt::Display for Entry<&[u8]> {
    ghost output = { λ e. Some (entry_text e.switch e.bytes.now) };

    fn fmt<W: fmt::Write>(&self, f: &mut fmt::Formatter<W>) -> fmt::Result {
        write!(f, "{} {}", self.switch, Bytes(self.bytes))
    }
}

// Holds that a printed line is read back as its entry, and a script of such lines as its entries.
pub fn printed_scripts_read_back()
    ensures entries { EntriesReturn }
    ensures scripts { ScriptsReturn }
{}
