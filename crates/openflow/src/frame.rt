ghost use Rattle.std.specs.Prelude.{◌≤◌};

mod laying;

// The length of the longest message.
pub const LONGEST: usize = 88;

// A message being laid out: the first `length` bytes. An array and a length, since writing has no heap.
#[derive(Clone, Copy)]
pub struct Frame {
    bytes: [u8; LONGEST],
    length: usize,
    ghost short: { length ≤ 88 },
}
