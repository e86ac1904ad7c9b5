ghost use Rattle.std.specs.Prelude.{◌≡◌};
ghost use Rattle.decoding.specs.Faults.{read_number};
ghost use Rattle.decoding.specs.declared.fault.ReadFault.TheVariants as fault;

use openflow::kind::UnknownType;
use refusals::refusal::Refusal;

// Why bytes are not read, with what is at fault.
#[derive(Clone, Copy, PartialEq, Eq)]
pub enum ReadFault {
    Switch(u8),
    // How many bytes there are.
    Short(usize),
    Version(u8),
    Type(u8),
    // The length that the bytes claim.
    Length(u16),
    // The bytes are not the writing of any message or reply.
    NoWriting,
}

impl From<UnknownType> for ReadFault {
    ghost from_gives = { λ unknown refusal. refusal ≡ fault.Type unknown.0 };

    fn from(unknown: UnknownType) -> ReadFault {
        ReadFault::Type(unknown.0)
    }
}

impl Refusal for ReadFault {
    ghost number_of = { read_number };

    fn number(self) -> u8 {
        match self {
            ReadFault::Switch(_) => 21,
            ReadFault::Short(_) => 1,
            ReadFault::Version(_) => 2,
            ReadFault::Type(_) => 3,
            ReadFault::Length(_) => 4,
            ReadFault::NoWriting => 5,
        }
    }
}
