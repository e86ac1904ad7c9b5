ghost use Rattle.std.specs.Prelude.{Some};
ghost use Rattle.answers.specs.Texts.{fields_text};

use crate::cidr::Cidr;
use crate::wild::Wild;
use rules::row::PatternRow;
use std::fmt;

// What a rule matches, field by field.
#[derive(Clone, Copy)]
pub struct Fields(pub PatternRow);

impl fmt::Display for Fields {
    ghost output = { λ p. Some (fields_text p.0) };

    fn fmt<W: fmt::Write>(&self, f: &mut fmt::Formatter<W>) -> fmt::Result {
        let Fields(row) = self;
        write!(
            f,
            "in_port={} source={} destination={} protocol={} destination_port={}",
            Wild(row.in_port),
            Cidr(row.source),
            Cidr(row.destination),
            Wild(row.protocol),
            Wild(row.destination_port)
        )
    }
}
