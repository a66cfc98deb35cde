// What an answer is made of. The functions stand in other files, since the definitions that their contracts cite name these
// types.
use std::marker::Model;
use words::{Content, Refusal};

/// What was seen at one place, 1 to 12: the number sent, the number that arrived, and what that reads as, which is nothing where
/// it is spoiled.
#[derive(Clone, Copy, Debug, PartialEq, Eq)]
pub struct Arrival {
    pub place: u32,
    pub sent: u32,
    pub arrived: u32,
    pub reading: Option<Content>,
}

/// What was seen at the twelve places of a block. Clauses see the arrivals, in the order of the places.
#[derive(Debug, Drop)]
pub struct Report {
    pub arrivals: [Arrival; 12],
}

impl Model for Report {
    ghost use Rattle.std.specs.Prelude.{◌≡◌, List, length};
    ghost use Rattle.answers.specs.declared.parts.Arrival.{Arrival};

    ghost Value = { List Arrival };

    ghost view = { λ report. report.arrivals };

    ghost invariant = { λ report. length report.arrivals ≡ 12 };
}

/// What is wrong with a field of a line.
#[derive(Clone, Copy, Debug, PartialEq, Eq)]
pub enum Trouble {
    /// The field is not there.
    Missing,
    /// It cannot be understood, or it is one too many.
    Unclear,
    /// Its number is refused.
    Refused(Refusal),
}

/// A fault in the lines of an order: the line and the place of the field in it, both from 1, and what is wrong with it.
#[derive(Clone, Copy, Debug, PartialEq, Eq)]
pub struct Fault {
    pub line: u32,
    pub place: u32,
    pub trouble: Trouble,
}
