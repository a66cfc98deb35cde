// Codes: reserved contents and synchronization units.
ghost use Rattle.std.specs.Prelude.{◌≡◌, true, ◌&&◌, ◌^◌, IfOk, if◌then◌else◌, Ok, Err, nat_le, nat_lt};
ghost use Rattle.coding.specs.Bits.{bits};
ghost use Rattle.reserved.specs.Reserved.{apart, acceptable, begins_with, reserved, syu_of};
ghost use Rattle.words.specs.declared.refusals.Refusal.TheVariants.{Settings, OutOfRange};

use super::numbers::CodeNumbers;
use std::marker::Model;
use words::{Content, Refusal};

/// The contents of the three control signals, and the synchronization pattern, which clauses see as plain numbers. They are
/// acceptable: no two of the contents are equal, and none begins with the pattern.
#[derive(Clone, Copy, Debug, PartialEq, Eq)]
pub struct Codes {
    changeover: Content,
    load_transfer: Content,
    acknowledgement: Content,
    pattern: u16,
}

impl Model for Codes {
    ghost use Rattle.std.specs.Prelude.{◌≡◌, true};
    ghost use Rattle.reserved.specs.declared.numbers.CodeNumbers.{CodeNumbers};
    ghost use Rattle.reserved.specs.Reserved.{acceptable};

    ghost Value = { CodeNumbers };

    ghost use Rattle.reserved.specs.Held.{numbers_held};

    ghost view = { numbers_held };

    ghost invariant = { λ codes. acceptable (numbers_held codes) ≡ true };

    ghost inverse = { λ numbers. record {
      changeover = numbers.changeover;
      load_transfer = numbers.load_transfer;
      acknowledgement = numbers.acknowledgement;
      pattern = numbers.pattern;
    } };
}

// Whether the first sixteen of twenty bits are the pattern. Bits above the twenty, which a number that is no content may have, are
// passed over.
fn begins_with(pattern: u32, content: u32) -> bool
    ensures { result ≡ begins_with pattern content }
{
    (content >> 4) % (1 << 16) == pattern
}

// A content that is set. A number that is too large makes the settings bad.
fn content_set(number: u32) -> Result<Content, Refusal>
    ensures { result ≡ (if nat_lt number (2 ^ 20) then Ok number else Err Settings) }
{
    Content::try_from(number).map_err(|_| Refusal::Settings)
}

impl CodeNumbers {
    // Whether no two of the contents are equal, and none begins with the pattern.
    fn are_apart(self) -> bool
        ensures { result ≡ apart self }
    {
        self.changeover != self.load_transfer
            && self.load_transfer != self.acknowledgement
            && self.acknowledgement != self.changeover
            && !begins_with(self.pattern, self.changeover)
            && !begins_with(self.pattern, self.load_transfer)
            && !begins_with(self.pattern, self.acknowledgement)
    }
}

/// The codes from plain numbers. Refused where a number is too large, two of the contents are equal, or one of them begins
/// with the pattern.
impl TryFrom<CodeNumbers> for Codes {
    type Error = Refusal;

    ghost try_from_gives = { λ numbers r. r ≡ (if acceptable numbers then Ok numbers else Err Settings) };

    fn try_from(numbers: CodeNumbers) -> Result<Codes, Refusal> {
        let changeover = content_set(numbers.changeover)?;
        let load_transfer = content_set(numbers.load_transfer)?;
        let acknowledgement = content_set(numbers.acknowledgement)?;
        let pattern = u16::try_from(numbers.pattern).map_err(|_| Refusal::Settings)?;
        if !numbers.are_apart() {
            return Err(Refusal::Settings);
        }
        Ok(Codes {
            changeover,
            load_transfer,
            acknowledgement,
            pattern,
        })
    }
}

/// The numbers of the codes, which are acceptable.
impl From<Codes> for CodeNumbers {
    ghost from_gives = { λ codes numbers. (numbers ≡ codes) × (acceptable numbers ≡ true) };

    fn from(codes: Codes) -> CodeNumbers {
        CodeNumbers {
            changeover: u32::from(codes.changeover),
            load_transfer: u32::from(codes.load_transfer),
            acknowledgement: u32::from(codes.acknowledgement),
            pattern: u32::from(codes.pattern),
        }
    }
}

impl Codes {
    /// Whether a content is reserved.
    pub fn reserves(self, content: Content) -> bool
        ensures { result ≡ reserved self content }
    {
        content == self.changeover
            || content == self.load_transfer
            || content == self.acknowledgement
            || begins_with(u32::from(self.pattern), u32::from(content))
    }

    /// The synchronization unit (SYU) of a place, 1 to 11. Another place is refused.
    pub fn syu(self, place: u32) -> Result<Content, Refusal>
        ensures value { result ≡ (if nat_le 1 place && nat_le place 11 then Ok (syu_of self.pattern place) else Err OutOfRange) }
        ensures layout { IfOk result (λ c. (bits 1 16 c ≡ self.pattern) × (bits 17 20 c ≡ place)) }
        ensures reserved { IfOk result (λ c. reserved self c ≡ true) }
    {
        if place < 1 || place > 11 {
            return Err(Refusal::OutOfRange);
        }
        Content::try_from(u32::from(self.pattern) * 16 + place)
    }
}
