ghost use Rattle.std.specs.Prelude.{Some};
ghost use Rattle.answers.specs.Texts.{block_text};

use rules::row::Block;
use std::fmt;

// An address block: the address in dotted decimal, a slash and the length.
#[derive(Clone, Copy)]
pub struct Cidr(pub Block);

impl fmt::Display for Cidr {
    ghost output = { λ c. Some (block_text c.0) };

    fn fmt<W: fmt::Write>(&self, f: &mut fmt::Formatter<W>) -> fmt::Result {
        let Block { address, length } = self.0;
        let [a, b, c, d] = address.to_be_bytes();
        write!(f, "{a}.{b}.{c}.{d}/{length}")
    }
}
