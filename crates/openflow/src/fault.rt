ghost use Rattle.openflow.specs.Faults.{write_number};

use refusals::refusal::Refusal;

// A buffer shorter than what is to be written into it.
#[derive(Clone, Copy, PartialEq, Eq)]
pub struct WriteFault {
    pub needed: usize,
    pub room: usize,
}

impl Refusal for WriteFault {
    ghost number_of = { write_number };

    fn number(self) -> u8 {
        11
    }
}
