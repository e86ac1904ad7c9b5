ghost use Rattle.std.specs.Prelude.{◌≡◌, ℕ};

// An error that has a number in the table of refusals.
pub trait Refusal: Copy {
    ghost number_of: { Self → ℕ };

    fn number(self) -> u8
        ensures { result ≡ number_of self };
}
