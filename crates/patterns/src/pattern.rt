ghost use Rattle.std.specs.Prelude.{◌≡◌, Bool, true, false, ◌&&◌, is_some, MatchBool, Option};
ghost use Rattle.patterns.specs.Meets.{Meet};

// What all patterns have in common. `admitting` says which subjects a pattern admits, `meeting` which pattern two of
// them meet in, `fits` which subjects the subject's type can hold, and `sound` that a pattern's own numbers fit.
pub trait Pattern: Sized {
    type Subject;

    ghost admitting: { Self → Self.Subject → Bool };

    ghost meeting: { Self → Self → Option Self };

    ghost fits: { Self.Subject → Type 0 };

    ghost sound: { Self → Type 0 };

    fn admits(&self, x: &Self::Subject) -> bool
        ensures { result ≡ admitting self.now x.now };

    fn meet(&self, other: &Self) -> Option<Self>
        ensures { result ≡ meeting self.now other.now };

    // The meet admits exactly what both admit; without a meet, nothing is admitted by both.
    ghost exact: { (a b : Self) → Meet admitting a b (meeting a b) };

    // Where there is a meet, both admit some subject that its type can hold.
    ghost shared: { (a b : Self) → sound a → sound b → is_some (meeting a b) ≡ true → (x : Self.Subject) × (fits x × ((admitting a x && admitting b x) ≡ true)) };
}

// Whether some subject is admitted by both: one text for every kind of pattern.
pub fn overlap<P: Pattern + Drop>(a: &P, b: &P) -> bool
    ensures value { result ≡ is_some (P.meeting a.now b.now) }
    ensures cases { MatchBool result (P.Pattern.sound a.now → P.Pattern.sound b.now → (x : P.Subject) × (P.Pattern.fits x × ((P.admitting a.now x && P.admitting b.now x) ≡ true))) ((x : P.Subject) → (P.admitting a.now x && P.admitting b.now x) ≡ false) }
{
    a.meet(b).is_some()
}
