ghost use Rattle.std.specs.Prelude.{Some};
ghost use Rattle.answers.specs.Texts.{answer_text};

use crate::reading::Reading;
use decoding::fault::ReadFault;
use decoding::received::Received;
use refusals::refused::Refused;
use std::fmt;

// What the reader answers: what it read, or why it refused.
#[derive(Clone, Copy)]
pub struct Answer(pub Result<Received, ReadFault>);

impl fmt::Display for Answer {
    ghost output = { λ a. Some (answer_text a.0) };

    fn fmt<W: fmt::Write>(&self, f: &mut fmt::Formatter<W>) -> fmt::Result {
        match self.0 {
            Ok(received) => write!(f, "{}", Reading(received)),
            Err(fault) => write!(f, "{}", Refused(fault)),
        }
    }
}
