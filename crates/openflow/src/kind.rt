ghost use Rattle.std.specs.Prelude.{◌≡◌};
ghost use Rattle.openflow.specs.Kinds.{type_number, Decodes};

// The version of OpenFlow 1.0 in a header.
pub const VERSION: u8 = 1;

// The types of message on the wire.
#[derive(Clone, Copy, PartialEq, Eq)]
pub enum Kind {
    FlowMod,
    Barrier,
    Reply,
}

// A number that is no type of ours.
#[derive(Clone, Copy, PartialEq, Eq)]
pub struct UnknownType(pub u8);

// The type's number in a header.
impl From<Kind> for u8 {
    ghost from_gives = { λ kind number. number ≡ type_number kind };

    fn from(kind: Kind) -> u8 {
        match kind {
            Kind::FlowMod => 14,
            Kind::Barrier => 18,
            Kind::Reply => 19,
        }
    }
}

impl TryFrom<u8> for Kind {
    type Error = UnknownType;

    ghost try_from_gives = { Decodes };

    fn try_from(number: u8) -> Result<Kind, UnknownType> {
        match number {
            14 => Ok(Kind::FlowMod),
            18 => Ok(Kind::Barrier),
            19 => Ok(Kind::Reply),
            _ => Err(UnknownType(number)),
        }
    }
}
