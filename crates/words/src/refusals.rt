// The refusals of every call.
ghost use Rattle.std.specs.Prelude.{◌≡◌};
ghost use Rattle.words.specs.Refusals.{number_of};

/// Why a call was refused. A refused call alters nothing.
#[derive(Clone, Copy, Debug, PartialEq, Eq)]
pub enum Refusal {
    /// A call before opening, or a second opening.
    OutOfTurn = 1,
    /// Settings that do not go together or are out of their range.
    Settings = 2,
    /// The two delays of a link add to more than six block times.
    DelaysTooLong = 3,
    /// A number out of its range.
    OutOfRange = 4,
    /// A list of the wrong length.
    WrongLength = 5,
    /// A reserved content was offered.
    ReservedContent = 6,
    /// The clock, a block count or a ticket would pass 2^40.
    LimitPassed = 7,
    /// The hold is full.
    HoldFull = 8,
    /// Nothing is there.
    NothingThere = 9,
    /// The open block is full.
    BlockFull = 10,
}

/// The number by which the refusal is known outside.
impl From<Refusal> for u32 {
    ghost use Rattle.words.specs.declared.refusals.Refusal.{Refusal};

    ghost from_gives = { λ refusal number. (number ≡ number_of refusal) × ((other : Refusal) → number_of other ≡ number → other ≡ refusal) };

    fn from(refusal: Refusal) -> u32 {
        refusal as u32
    }
}
