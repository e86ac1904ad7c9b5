ghost use Rattle.std.specs.Prelude.{◌≡◌, ◌<◌, length, IfSome};
ghost use Rattle.std.specs.Iterator.{at_most};
ghost use Rattle.std.specs.Option.{option_copied, option_map};
ghost use Rattle.scripts.specs.Splits.{first_line, chomped, TakesLine};

use crate::split::split_once;

// What is left of a text, whose lines come one by one.
#[derive(Clone, Copy, Drop)]
pub struct Lines<'a>(pub &'a [u8]);

impl<'a> Iterator for Lines<'a> {
    type Item = &'a [u8];

    ghost next_gives = { λ s line t. TakesLine s.0.now (option_copied line) t.0.now };

    ghost remaining = { λ s. at_most (length s.0.now) };

    fn next(&mut self) -> Option<&'a [u8]> {
        let (line, rest) = cut(self.0)?;
        self.0 = rest;
        Some(line)
    }
}

// The first line of a text, and what follows it; none where nothing is left.
// A line ends before a line feed or with the text, and a carriage return at its end is no part of it.
pub fn cut(text: &[u8]) -> Option<(&[u8], &[u8])>
    ensures value { option_map (λ p. (p.0.now, p.1.now)) result ≡ first_line text.now }
    ensures shorter { IfSome result (λ p. length p.1.now < length text.now) }
{
    if text.is_empty() {
        return None;
    }
    let (line, more) = split_once(text, b'\n').unwrap_or((text, &[]));
    Some((chomp(line), more))
}

fn chomp(line: &[u8]) -> &[u8]
    ensures { result.now ≡ chomped line.now }
{
    line.strip_suffix(b"\r").unwrap_or(line)
}
