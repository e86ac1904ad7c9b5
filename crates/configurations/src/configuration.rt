ghost use Rattle.std.specs.Prelude.{◌≤◌, length};
ghost use Rattle.configurations.specs.Settings.{MakeBefore, ClearBefore};

use rules::row::Row;

mod made;
pub mod setting;

// A configuration borrows the list of its rows. Its invariant is `Sound`, part by part, and over `rows` itself, which public
// clauses name.
#[derive(Clone, Copy)]
pub struct Configuration<'a> {
    rows: &'a [Row],
    ghost few: { length rows.now ≤ 256 },
    ghost made: { MakeBefore rows.now (length rows.now) },
    ghost clear: { ClearBefore rows.now (length rows.now) },
}
