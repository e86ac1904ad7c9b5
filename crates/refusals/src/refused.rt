ghost use Rattle.std.specs.Prelude.{Some};
ghost use Rattle.refusals.specs.Texts.{refused_text};

use crate::refusal::Refusal;
use std::fmt;

// A refusal as it is printed: the word, and its number.
#[derive(Clone, Copy)]
pub struct Refused<F>(pub F);

impl<F: Refusal> fmt::Display for Refused<F> {
    ghost output = { λ r. Some (refused_text (F.number_of r.0)) };

    fn fmt<W: fmt::Write>(&self, f: &mut fmt::Formatter<W>) -> fmt::Result {
        let number = self.0.number();
        write!(f, "refused {number}")
    }
}
