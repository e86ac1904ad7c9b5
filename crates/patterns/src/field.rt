ghost use Rattle.std.specs.Prelude.{◌≡◌, ◌^◌, ◌<◌, ◌≤◌, true};
ghost use Rattle.std.proofs.Common.{lit<, lit≤, rules};
ghost use Rattle.std.proofs.lemmas.Bool.{eqb-true};
ghost use Rattle.patterns.specs.Limited.{port_told};

use crate::port::Port;

// A kind of number that a number pattern can fix: the values that its type can hold, and that equal ones are the same.
pub trait Field: Copy + Eq {
    ghost fits: { Self → Type 0 };

    // A value for the witness of an open pattern.
    ghost sample: { Self };

    ghost held: { fits sample };

    ghost identical: { (a b : Self) → Self.eq a b ≡ true → a ≡ b };
}

// An impl to a type, since how wide it is is all that each says.
impl Field for u8 {
    ghost fits = { λ n. n < 2 ^ 8 };

    ghost sample = { 0 };

    ghost held = { lit< tt };

    ghost identical = { Prim.search rules };
}

impl Field for u16 {
    ghost fits = { λ n. n < 2 ^ 16 };

    ghost sample = { 0 };

    ghost held = { lit< tt };

    ghost identical = { Prim.search rules };
}

impl Field for Port {
    // The type holds no other.
    ghost fits = { λ p. (1 ≤ p.number) × (p.number ≤ 16) };

    ghost sample = { record { number = 1; ok = (lit≤ tt, lit≤ tt) } };

    ghost held = { (lit≤ tt, lit≤ tt) };

    ghost identical = { λ a b e. port_told a b (eqb-true a.number b.number e) };
}
