ghost use Rattle.std.specs.Prelude.{◌≡◌, ◌<◌, ◌==◌, length, position, IfSome};
ghost use Rattle.std.specs.Option.{option_map};
ghost use Rattle.scripts.specs.Splits.{split};

// What stands before the first mark, and what after it.
pub(crate) fn split_once(text: &[u8], mark: u8) -> Option<(&[u8], &[u8])>
    ensures value { option_map (λ p. (p.0.now, p.1.now)) result ≡ split mark text.now }
    ensures shorter { IfSome result (λ p. length p.1.now < length text.now) }
{
    let at = place(text, mark)?;
    Some((&text[..at], &text[at + 1..]))
}

// Where the first mark stands. Not inlined, since the compiler then makes a shorter loop of it.
#[inline(never)]
fn place(text: &[u8], mark: u8) -> Option<usize>
    ensures { result ≡ position (λ c. c == mark) text.now }
{
    text.iter().position(|c| *c == mark)
}
