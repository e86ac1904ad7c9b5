ghost use Rattle.std.specs.Prelude.{◌≡◌, ◌≤◌, is_some, IfSome};
ghost use Rattle.patterns.specs.Limits.{is_port};

// A port of a switch, 1 to 16. Made and read as std's `NonZeroU8` is: a caller gives an error of its own where there is none,
// and asks for the number by name. The literal owes its limits, so `new` tests first.
// No one type over limits serves ports, switches and tags: a tag's width and refusal are others, and each reads plainer alone.
#[derive(Clone, Copy, PartialEq, Eq)]
pub struct Port {
    number: u8,
    ghost ok: { (1 ≤ number) × (number ≤ 16) },
}

impl Port {
    pub fn new(number: u8) -> Option<Port>
        ensures test { is_some result ≡ is_port number }
        ensures value { IfSome result (λ p. p.number ≡ number) }
    {
        if number < 1 || number > 16 {
            return None;
        }
        Some(Port { number })
    }

    pub fn number(self) -> u8
        ensures { result ≡ self.number }
    {
        self.number
    }
}
