ghost use Rattle.std.specs.Prelude.{◌&&◌};
ghost use Rattle.patterns.specs.Pairs.{both_some};
ghost use Rattle.patterns.specs.Tests.{and_halves, some_halves};
ghost use Rattle.std.proofs.Common.{rules};

use crate::pattern::Pattern;

// A pair of patterns admits the pairs whose halves they admit. Its name tells the pattern from the pair of subjects.
#[derive(Clone, Copy, Drop, PartialEq, Eq)]
pub struct Pair<A, B>(pub A, pub B);

impl<A: Pattern + Drop, B: Pattern + Drop> Pattern for Pair<A, B> {
    type Subject = (A::Subject, B::Subject);

    ghost admitting = { λ p x. A.Pattern.admitting p.0 x.0 && B.Pattern.admitting p.1 x.1 };

    ghost meeting = { λ a b. both_some (λ x y. record { 0 = x; 1 = y }) (A.Pattern.meeting a.0 b.0) (B.Pattern.meeting a.1 b.1) };

    ghost fits = { λ x. A.Pattern.fits x.0 × B.Pattern.fits x.1 };

    ghost sound = { λ p. A.Pattern.sound p.0 × B.Pattern.sound p.1 };

    ghost exact = { Prim.search rules };

    ghost shared = { λ a b u v e.
        let (left, right) = some_halves _ _ _ e in
        let x = A.Pattern.shared a.0 b.0 u.0 v.0 left in
        let y = B.Pattern.shared a.1 b.1 u.1 v.1 right in
        let in_a = A.Pattern.admitting in
        let in_b = B.Pattern.admitting in
        ((x.0, y.0), ((x.1.0, y.1.0), and_halves (in_a a.0 x.0) (in_a b.0 x.0) (in_b a.1 y.0) (in_b b.1 y.0) x.1.1 y.1.1)) };

    fn admits(&self, x: &(A::Subject, B::Subject)) -> bool {
        self.0.admits(&x.0) && self.1.admits(&x.1)
    }

    fn meet(&self, other: &Self) -> Option<Self> {
        Some(Pair(self.0.meet(&other.0)?, self.1.meet(&other.1)?))
    }
}
