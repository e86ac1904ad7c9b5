ghost use Rattle.std.specs.Prelude.{◌≡◌};
ghost use Rattle.scripts.specs.Forms.{pair_value};

// The byte that two digits write.
pub(crate) fn byte(high: u8, low: u8) -> Option<u8>
    ensures { result ≡ pair_value high low }
{
    let high = char::from(high).to_digit(16)?;
    let low = char::from(low).to_digit(16)?;
    Some((high * 16 + low) as u8)
}
