ghost use Rattle.std.specs.Prelude.{◌≡◌, ◌-◌, ◌%◌, ◌^◌, ◌<◌, ◌≤◌, ◌&&◌, is_some, IfSome, if◌then◌else◌, nat_le};
ghost use Rattle.patterns.specs.Limits.{is_length, ends_in_zeros};
ghost use Rattle.patterns.specs.Prefixes.{same_start, meet_by};
ghost use Rattle.patterns.specs.Starts.{meet_exact, meet_shared};

use crate::pattern::Pattern;

// A prefix pattern: the addresses that agree with `address` in the first `length` bits. The later bits are zero.
#[derive(Clone, Copy, PartialEq, Eq)]
pub struct Prefix {
    address: u32,
    length: u8,
    ghost ok: { (length ≤ 32) × (address < 2 ^ 32) × (address % 2 ^ (32 - length) ≡ 0) },
}

// The shorter of two prefixes and then the other; where they are as long, in the order given.
fn by_length(a: Prefix, b: Prefix) -> (Prefix, Prefix)
    ensures { result ≡ (if nat_le a.length b.length then (a, b) else (b, a)) }
{
    if a.length <= b.length { (a, b) } else { (b, a) }
}

impl Prefix {
    // From its fields, as a port is made: the struct of the two numbers, `Block`, belongs to the rows of rules.
    pub fn new(address: u32, length: u8) -> Option<Prefix>
        ensures test { is_some result ≡ (is_length length && ends_in_zeros address length) }
        ensures value { IfSome result (λ p. (p.address ≡ address) × (p.length ≡ length)) }
    {
        if length > 32 || u64::from(address) % (1u64 << (32 - u32::from(length))) != 0 {
            return None;
        }
        Some(Prefix { address, length })
    }

    pub fn address(self) -> u32
        ensures { result ≡ self.address }
    {
        self.address
    }

    pub fn length(self) -> u8
        ensures { result ≡ self.length }
    {
        self.length
    }

    // Whether an address has the same first bits.
    fn starts(self, x: u32) -> bool
        ensures { result ≡ same_start self.length self.address x }
    {
        let gap = 32 - u32::from(self.length);
        u64::from(self.address) >> gap == u64::from(x) >> gap
    }
}

impl Pattern for Prefix {
    type Subject = u32;

    ghost admitting = { λ p x. same_start p.length p.address x };

    ghost meeting = { meet_by (λ p. p.length) (λ p. p.address) };

    ghost fits = { λ x. x < 2 ^ 32 };

    // The type holds no other.
    ghost sound = { λ _. Unit {0} };

    ghost exact = { λ a b. meet_exact (λ p. p.length) (λ p. p.address) a b a.ok.0 b.ok.0 };

    ghost shared = { λ a b u v e. meet_shared (λ p. p.length) (λ p. p.address) a b a.ok.1 b.ok.1 e };

    fn admits(&self, x: &u32) -> bool {
        self.starts(*x)
    }

    fn meet(&self, other: &Prefix) -> Option<Prefix> {
        let (short, long) = by_length(*self, *other);
        short.starts(long.address).then_some(long)
    }
}
