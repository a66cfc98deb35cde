// Acknowledgement units.
ghost use Rattle.std.specs.Prelude.{◌≡◌, true};
ghost use Rattle.acknowledgement.specs.Acu.{short, acu_of, acu_from};
ghost use Rattle.acknowledgement.specs.declared.fields.AcuFields.{AcuFields};
ghost use Rattle.coding.specs.Bits.{bits};

use super::fields::AcuFields;
use std::marker::Model;
use words::{Content, Refusal};

/// An acknowledgement unit (ACU), which clauses see as its fields. Each of them is short enough for its bits.
#[derive(Clone, Copy, Debug, PartialEq, Eq)]
pub struct Acu {
    fields: AcuFields,
}

impl Model for Acu {
    ghost Value = { AcuFields };

    ghost view = { λ acu. acu.fields };

    ghost invariant = { λ acu. short acu.fields ≡ true };

    ghost inverse = { λ fields. record { fields = fields } };
}

/// An ACU from its fields. One that is too large is refused.
impl TryFrom<AcuFields> for Acu {
    type Error = Refusal;

    ghost try_from_gives = { λ fields r. r ≡ acu_from fields };

    fn try_from(fields: AcuFields) -> Result<Acu, Refusal> {
        let AcuFields {
            indicators,
            acknowledged,
            number,
        } = fields;
        if indicators >= 1 << 11 || acknowledged >= 1 << 3 || number >= 1 << 3 {
            return Err(Refusal::OutOfRange);
        }
        Ok(Acu { fields })
    }
}

/// The fields of the ACU, each of which is short enough for its bits.
impl From<Acu> for AcuFields {
    ghost from_gives = { λ acu fields. (fields ≡ acu) × (short fields ≡ true) };

    fn from(acu: Acu) -> AcuFields {
        acu.fields
    }
}

impl Acu {
    /// The content of the ACU.
    pub fn content(self) -> Content
        ensures value { result ≡ acu_of self }
        ensures layout { (bits 1 3 result ≡ 0b011) × (bits 4 14 result ≡ self.indicators)
            × (bits 15 17 result ≡ self.acknowledged) × (bits 18 20 result ≡ self.number) }
    {
        let AcuFields {
            indicators,
            acknowledged,
            number,
        } = self.fields;
        let bits = (0b011 << 17) + (indicators << 6) + (acknowledged << 3) + number;
        Content::try_from(bits).unwrap()
    }
}
