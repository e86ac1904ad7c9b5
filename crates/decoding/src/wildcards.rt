ghost use Rattle.std.specs.Prelude.{◌≡◌, ◌-◌, ◌/◌, ◌%◌, ◌^◌, ◌<◌, ◌==◌};

// The wildcards of a flow-mod: a bit for each number that may be open, and six for the open last bits of each address.
#[derive(Clone, Copy)]
pub(crate) struct Wildcards(pub(crate) u32);

// Where each part begins.
pub(crate) const IN_PORT: u32 = 0;

pub(crate) const PROTOCOL: u32 = 5;

pub(crate) const DESTINATION_PORT: u32 = 7;

pub(crate) const SOURCE: u32 = 8;

pub(crate) const DESTINATION: u32 = 14;

impl Wildcards {
    pub(crate) fn is_open(self, bit: u32) -> bool
        requires { bit < 32 }
        ensures { result ≡ (self.0 / 2 ^ bit % 2 == 1) }
    {
        (self.0 >> bit) % 2 == 1
    }

    // A prefix length, from how many last bits are open. More than 32 stand for 32.
    pub(crate) fn prefix_length(self, bit: u32) -> u8
        requires { bit < 32 }
        ensures { result ≡ 32 - self.0 / 2 ^ bit % 64 }
    {
        32u8.saturating_sub(((self.0 >> bit) % 64) as u8)
    }
}
