ghost use Rattle.rules.specs.Limits.{Makes};

use crate::row::Row;

pub mod making;
pub mod matching;

// A flow rule within its limits: a row that no test of the making refuses. `Rule::try_from(row)` would say what
// `Rule::new(row)` says.
#[derive(Clone, Copy, PartialEq, Eq)]
pub struct Rule {
    row: Row,
    ghost ok: { Makes row },
}
