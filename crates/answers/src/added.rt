ghost use Rattle.std.specs.Prelude.{Some};
ghost use Rattle.answers.specs.Texts.{added_text};

use crate::fields::Fields;
use crate::output::Output;
use messages::add::Add;
use std::fmt;

// The rule of an add, under its tag.
#[derive(Clone, Copy)]
pub struct Added(pub Add);

impl fmt::Display for Added {
    ghost output = { λ a. Some (added_text a.0.tag.number a.0.rule.row a.0.strip) };

    fn fmt<W: fmt::Write>(&self, f: &mut fmt::Formatter<W>) -> fmt::Result {
        let Added(add) = self;
        let row = add.rule().row();
        write!(
            f,
            "tag={} priority={} {} out={} strip={}",
            add.tag().number(),
            row.priority,
            Fields(row.pattern),
            Output(row.action),
            if add.strip() { "yes" } else { "no" }
        )
    }
}
