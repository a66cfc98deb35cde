// How an answer is printed. Each `Display` is written out, since one that a derive writes states no output.
ghost use Rattle.std.specs.Prelude.{Some};
ghost use Rattle.answers.specs.Print.{place_text, report_text, trouble_text, fault_line, answer_text};

use super::parts::{Arrival, Fault, Report, Trouble};
use printing::Hex;
use std::fmt;

impl fmt::Display for Arrival {
    ghost output = { λ a. Some (place_text a) };

    fn fmt<W: fmt::Write>(&self, f: &mut fmt::Formatter<W>) -> fmt::Result {
        let place = self.place;
        let sent = Hex::<7>(self.sent);
        let arrived = Hex::<7>(self.arrived);
        match self.reading {
            Some(content) => {
                let content = Hex::<5>(u32::from(content));
                write!(f, "{place} {sent} {arrived} good {content}")
            }
            None => write!(f, "{place} {sent} {arrived} spoiled"),
        }
    }
}

impl fmt::Display for Report {
    ghost output = { λ r. Some (report_text r) };

    fn fmt<W: fmt::Write>(&self, f: &mut fmt::Formatter<W>) -> fmt::Result {
        for arrival in self.arrivals.iter() {
            writeln!(f, "{arrival}")?;
        }
        let good = self.good();
        writeln!(f, "{good} of 12 good")
    }
}

impl fmt::Display for Trouble {
    ghost output = { λ t. Some (trouble_text t) };

    fn fmt<W: fmt::Write>(&self, f: &mut fmt::Formatter<W>) -> fmt::Result {
        match self {
            Trouble::Missing => write!(f, "missing"),
            Trouble::Unclear => write!(f, "cannot be understood"),
            Trouble::Refused(refusal) => {
                let number = u32::from(*refusal);
                write!(f, "refused, {number}")
            }
        }
    }
}

impl fmt::Display for Fault {
    ghost output = { λ fault. Some (fault_line fault) };

    fn fmt<W: fmt::Write>(&self, f: &mut fmt::Formatter<W>) -> fmt::Result {
        let line = self.line;
        let place = self.place;
        let trouble = self.trouble;
        writeln!(f, "line {line}, field {place}: {trouble}")
    }
}

// A type of its own: `Display` cannot be written for a `Result`.
/// What is printed of the answer to an order: a line for each of the twelve places and one for how many arrived good, or a
/// line that says what is wrong with the order.
#[derive(Debug, Drop)]
pub struct Printed(pub Result<Report, Fault>);

impl fmt::Display for Printed {
    ghost output = { λ p. Some (answer_text p.0) };

    fn fmt<W: fmt::Write>(&self, f: &mut fmt::Formatter<W>) -> fmt::Result {
        match &self.0 {
            Ok(report) => write!(f, "{report}"),
            Err(fault) => write!(f, "{fault}"),
        }
    }
}
