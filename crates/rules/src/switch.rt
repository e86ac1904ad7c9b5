ghost use Rattle.std.specs.Prelude.{◌≡◌, ◌≤◌, is_some, IfSome, nat_le};

// A switch of a site, 0 to 15. Made and read as a port is.
#[derive(Clone, Copy, PartialEq, Eq)]
pub struct Switch {
    number: u8,
    ghost ok: { number ≤ 15 },
}

impl Switch {
    pub fn new(number: u8) -> Option<Switch>
        ensures test { is_some result ≡ nat_le number 15 }
        ensures value { IfSome result (λ s. s.number ≡ number) }
    {
        if number > 15 {
            return None;
        }
        Some(Switch { number })
    }

    pub fn number(self) -> u8
        ensures { result ≡ self.number }
    {
        self.number
    }
}
