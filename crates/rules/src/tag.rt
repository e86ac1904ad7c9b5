ghost use Rattle.std.specs.Prelude.{◌≡◌, ◌≤◌, MatchResult};

use crate::fault::TagFault;

// A version tag, 1 to 4094. It travels as a packet's VLAN number. Made by `new`, which refuses with a
// number of the table, as that of a rule does.
#[derive(Clone, Copy, PartialEq, Eq)]
pub struct Tag {
    number: u16,
    ghost ok: { (1 ≤ number) × (number ≤ 4094) },
}

impl Tag {
    pub fn new(number: u16) -> Result<Tag, TagFault>
        ensures { MatchResult result (λ t. t.number ≡ number) (λ e. ¬ ((1 ≤ number) × (number ≤ 4094)) × (e.tag ≡ number)) }
    {
        if number < 1 || number > 4094 {
            return Err(TagFault { tag: number });
        }
        Ok(Tag { number })
    }

    pub fn number(self) -> u16
        ensures { result ≡ self.number }
    {
        self.number
    }
}
