ghost use Rattle.std.specs.Prelude.{Some};
ghost use Rattle.answers.specs.Texts.{output_text};

use rules::row::Action;
use std::fmt;

// Where an action sends packets: its out port, or `drop`.
#[derive(Clone, Copy)]
pub struct Output(pub Action);

impl fmt::Display for Output {
    ghost output = { λ o. Some (output_text o.0) };

    fn fmt<W: fmt::Write>(&self, f: &mut fmt::Formatter<W>) -> fmt::Result {
        match self.0 {
            Action::Drop => write!(f, "drop"),
            Action::Out(port) => write!(f, "{port}"),
        }
    }
}
