// Numbers read from the bytes of a field.
ghost use Rattle.std.specs.Prelude.{◌≡◌};
ghost use Rattle.text.specs.Number.{digit_of, appended, number_in};

// The number with one digit more behind it. The base may be any number; `to_digit` takes one up to 36.
fn append(base: u32, number: u32, byte: u8) -> Option<u32>
    ensures { result ≡ appended base number (digit_of byte) }
{
    let digit = char::from(byte).to_digit(16).filter(|digit| *digit < base)?;
    number.checked_mul(base)?.checked_add(digit)
}

// Not by `from_str_radix`, which takes a sign, and text where a field is bytes.
/// The number that a field writes in a base up to 16. Nothing where the field is empty, a byte is no digit of the base, or the
/// number does not fit 32 bits.
pub fn number(base: u32, field: &[u8]) -> Option<u32>
    ensures { result ≡ number_in base field.now }
{
    if field.is_empty() {
        return None;
    }
    field
        .iter()
        .try_fold(0, |number, byte| append(base, number, *byte))
}
