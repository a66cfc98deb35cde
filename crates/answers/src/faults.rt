// From a refusal to a trouble, and on to a fault.
ghost use Rattle.std.specs.Prelude.{◌≡◌};
ghost use Rattle.answers.specs.declared.parts.Trouble.TheVariants.{Refused};

use super::parts::{Fault, Trouble};
use std::error::Error;
use words::Refusal;

impl From<Refusal> for Trouble {
    ghost from_gives = { λ refusal trouble. trouble ≡ Refused refusal };

    fn from(refusal: Refusal) -> Trouble {
        Trouble::Refused(refusal)
    }
}

impl Trouble {
    /// The fault that this trouble is with the field at a place of a line.
    pub fn at(self, line: u32, place: u32) -> Fault
        ensures { result ≡ record { line = line; place = place; trouble = self } }
    {
        Fault {
            line,
            place,
            trouble: self,
        }
    }
}

impl Error for Fault {}
