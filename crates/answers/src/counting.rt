// How much of a block arrived good.
ghost use Rattle.std.specs.Prelude.{◌≡◌};
ghost use Rattle.answers.specs.Good.{good_in};

use super::parts::Report;

impl Report {
    /// How many of the twelve places arrived good.
    pub fn good(&self) -> u32
        ensures { result ≡ good_in self.now }
    {
        self.arrivals
            .iter()
            .filter(|arrival| arrival.reading.is_some())
            .count() as u32
    }
}
