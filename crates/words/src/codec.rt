// Words of 28 bits: twenty of content and eight of check.
ghost use Rattle.std.specs.Prelude.{◌≡◌, ℕ, ◌%◌, ◌^◌, ◌<◌, ◌≤◌, true, IfOk, if◌then◌else◌, Some, None, Ok, Err, nat_le, nat_lt};
ghost use Rattle.coding.specs.Polynomial.{times, OnlyRemainder};
ghost use Rattle.coding.specs.Remainder.{first, reduced, remainder_of};
ghost use Rattle.words.specs.declared.refusals.Refusal.TheVariants.{OutOfRange};
ghost use Rattle.coding.specs.Word.{inverted, check_of, word_of, checks, reading_of, last_bit_inverted};

use super::refusals::Refusal;
use std::marker::Model;

// X^8, and the divisor X^8 + X^2 + X + 1
const X8: u32 = 0b1_0000_0000;

const DIVISOR: u32 = 0b1_0000_0111;

/// The content of a signal unit: a number of twenty bits, which clauses see as that number.
#[derive(Clone, Copy, Debug, Default, PartialEq, Eq)]
pub struct Content {
    value: u32,
}

impl Model for Content {
    ghost Value = { ℕ };

    ghost view = { λ content. content.value };

    ghost invariant = { λ content. content.value < 2 ^ 20 };

    ghost inverse = { λ number. record { value = number } };
}

/// A content of twenty bits. A number from 2^20 on is refused.
impl TryFrom<u32> for Content {
    type Error = Refusal;

    ghost try_from_gives = { λ number r. r ≡ (if nat_lt number (2 ^ 20) then Ok number else Err OutOfRange) };

    fn try_from(number: u32) -> Result<Content, Refusal> {
        if number >= 1 << 20 {
            return Err(Refusal::OutOfRange);
        }
        Ok(Content { value: number })
    }
}

/// The content as a number.
impl From<Content> for u32 {
    ghost from_gives = { λ content number. (number ≡ content) × (number < 2 ^ 20) };

    fn from(content: Content) -> u32 {
        content.value
    }
}

impl Content {
    /// The remainder of the content's first `n` bits times X^8 on division by X^8 + X^2 + X + 1, highest bits first. More
    /// than the twenty bits of a content are refused.
    #[tactic(auto, using(coding::proofs::Division::divides_only))]
    pub fn remainder(self, n: u32) -> Result<u8, Refusal>
        ensures value { result ≡ (if nat_le n 20 then Ok (remainder_of self n) else Err OutOfRange) }
        ensures divides { IfOk result (λ v. OnlyRemainder (times (first n self) (2 ^ 8)) v) }
    {
        if n > 20 {
            return Err(Refusal::OutOfRange);
        }
        Ok(remainder_of_first(self, n))
    }

    // The eight bits that follow the content in its word.
    fn check(self) -> u8
        ensures { result ≡ check_of self }
    {
        remainder_of_first(self, 20) ^ 0xff
    }

    /// The word that carries the content: the content, and then the eight bits of its check.
    #[tactic(auto, using(coding::proofs::Making::word_reads, coding::proofs::Making::word_divides, coding::proofs::Making::read_made))]
    pub fn word(self) -> u32
        ensures value { result ≡ word_of self }
        ensures undone { reading_of result ≡ Some self }
        ensures only { (other : ℕ) → reading_of other ≡ Some self → other ≡ result }
        ensures divides { OnlyRemainder (times self (2 ^ 8)) (inverted (result % 2 ^ 8)) }
    {
        (self.value << 8) + u32::from(self.check())
    }
}

// The remainder of the content's first `n` bits, worked out from that of its first `n - 1`.
#[tactic(auto, using(coding::proofs::Division::remainder_none, coding::proofs::Division::remainder_next, coding::proofs::Division::next_below))]
fn remainder_of_first(content: Content, n: u32) -> u8
    requires { n ≤ 20 }
    ensures { result ≡ remainder_of content n }
{
    if n == 0 {
        return 0;
    }
    let before = u32::from(remainder_of_first(content, n - 1));
    let bit = (content.value >> (20 - n)) % 2;
    reduce((before * 2) ^ (bit * X8)) as u8
}

// The polynomial less the divisor, where that goes in.
fn reduce(sum: u32) -> u32
    ensures { result ≡ reduced sum }
{
    if sum < X8 { sum } else { sum ^ DIVISOR }
}

/// What a number reads as: its content where it checks, and nothing where it is spoiled.
pub fn read(number: u32) -> Option<Content>
    ensures value { result ≡ reading_of number }
    ensures made { (content : ℕ) → result ≡ Some content → number ≡ word_of content }
{
    Content::try_from(number >> 8)
        .ok()
        .filter(|content| content.word() == number)
}

/// The number with its last bit inverted, which spoils any number that checks.
#[tactic(auto, using(coding::proofs::Making::inverted_spoils))]
pub fn invert_last_bit(number: u32) -> u32
    ensures value { result ≡ last_bit_inverted number }
    ensures spoils { checks number ≡ true → reading_of result ≡ None }
{
    number ^ 1
}
