// Numbers written in hexadecimal, with capital letters and leading zeros.
ghost use Rattle.std.specs.Prelude.{Some};
ghost use Rattle.printing.specs.Hex.{hex_of};

use std::fmt;

/// A number by its last hexadecimal digits, as many as the type says. A `u32` has eight; where the type says more, zeros stand
/// before them.
#[derive(Clone, Copy, Debug, PartialEq, Eq)]
pub struct Hex<const DIGITS: usize>(pub u32);

impl<const DIGITS: usize> fmt::Display for Hex<DIGITS> {
    ghost output = { λ h. Some (hex_of DIGITS h.0) };

    fn fmt<W: fmt::Write>(&self, f: &mut fmt::Formatter<W>) -> fmt::Result {
        let number = self.0;
        match DIGITS {
            0 => Ok(()),
            1..8 => write!(f, "{:0DIGITS$X}", number % 16_u32.pow(DIGITS as u32)),
            _ => write!(f, "{number:0DIGITS$X}"),
        }
    }
}
