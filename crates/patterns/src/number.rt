ghost use Rattle.patterns.specs.Numbers.{admits_number, meet_number, fixed_fits};
ghost use Rattle.patterns.specs.NumberLaws.{exact as exact_numbers, shared as shared_numbers};

use crate::field::Field;
use crate::pattern::Pattern;

// A number pattern: `Some(n)` admits one number, `None` all.
impl<T: Field + Drop> Pattern for Option<T> {
    type Subject = T;

    ghost admitting = { admits_number T.eq };

    ghost meeting = { meet_number T.eq };

    ghost fits = { T.Field.fits };

    ghost sound = { fixed_fits T.Field.fits };

    ghost exact = { exact_numbers T.eq T.Eq.laws };

    ghost shared = { shared_numbers T.eq T.Eq.laws T.Field.fits T.Field.sample T.Field.held };

    fn admits(&self, x: &T) -> bool {
        match self {
            None => true,
            Some(v) => v == x,
        }
    }

    fn meet(&self, other: &Option<T>) -> Option<Option<T>> {
        match (*self, *other) {
            (None, _) => Some(*other),
            (Some(_), None) => Some(*self),
            (Some(v), Some(w)) => (v == w).then_some(*self),
        }
    }
}
