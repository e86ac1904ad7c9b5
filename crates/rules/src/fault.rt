ghost use Rattle.rules.specs.Faults.{rule_number, tag_number};

use refusals::refusal::Refusal;

// Why a row makes no rule, with the numbers that are at fault.
#[derive(Clone, Copy, PartialEq, Eq)]
pub enum RuleFault {
    Switch(u8),
    InPort(u8),
    Length(u8),
    StrayBit { address: u32, length: u8 },
    PortWithoutTransport { port: u16, protocol: Option<u8> },
    OutPort(u8),
}

impl Refusal for RuleFault {
    ghost number_of = { rule_number };

    fn number(self) -> u8 {
        match self {
            RuleFault::Switch(_) => 21,
            RuleFault::InPort(_) => 22,
            RuleFault::Length(_) => 23,
            RuleFault::StrayBit { .. } => 24,
            RuleFault::PortWithoutTransport { .. } => 25,
            RuleFault::OutPort(_) => 26,
        }
    }
}

// A number that makes no tag.
#[derive(Clone, Copy, PartialEq, Eq)]
pub struct TagFault {
    pub tag: u16,
}

impl Refusal for TagFault {
    ghost number_of = { tag_number };

    fn number(self) -> u8 {
        29
    }
}
