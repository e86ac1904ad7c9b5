ghost use Rattle.answers.specs.Texts.{number_output};

use std::fmt;

// A number pattern: its number, or a star where all are admitted.
#[derive(Clone, Copy)]
pub struct Wild<T>(pub Option<T>);

impl<T: fmt::Display> fmt::Display for Wild<T> {
    ghost output = { λ w. number_output T.output w.0 };

    fn fmt<W: fmt::Write>(&self, f: &mut fmt::Formatter<W>) -> fmt::Result {
        match &self.0 {
            None => write!(f, "*"),
            Some(n) => write!(f, "{n}"),
        }
    }
}
