ghost use Rattle.std.specs.Prelude.{◌≡◌, ◌<◌, Some};
ghost use Rattle.scripts.specs.Texts.{digit_char, bytes_text};

use std::fmt;

// Digit by digit, since `{:02x}` pads as numbers of any length are padded, which takes longer.
fn digit(value: u8) -> char
    requires { value < 16 }
    ensures { result ≡ digit_char value }
{
    char::from_digit(u32::from(value), 16).unwrap()
}

// The bytes of a message to be printed, with a dash where there are none.
#[derive(Clone, Copy)]
pub(crate) struct Bytes<'a>(pub(crate) &'a [u8]);

impl fmt::Display for Bytes<'_> {
    ghost output = { λ b. Some (bytes_text b.0.now) };

    fn fmt<W: fmt::Write>(&self, f: &mut fmt::Formatter<W>) -> fmt::Result {
        if self.0.is_empty() {
            return f.write_str("-");
        }
        for &byte in self.0 {
            let high = digit(byte / 16);
            let low = digit(byte % 16);
            write!(f, "{high}{low}")?;
        }
        Ok(())
    }
}
