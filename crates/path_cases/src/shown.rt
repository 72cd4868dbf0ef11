// What is printed of a path.
use std::fmt;
use window::{Availability, Defect};

pub(crate) fn defect(d: Defect) -> &'static str {
    match d {
        Defect::Clear => "none",
        Defect::Mismatch => "Mismatch",
        Defect::Mismerge => "Mismerge",
        Defect::Locv => "LOCV",
        Defect::Excess => "Excess",
    }
}

#[derive(Clone, Copy)]
pub(crate) struct Shown(pub Availability);

impl fmt::Display for Shown {
    fn fmt<W: fmt::Write>(&self, f: &mut fmt::Formatter<W>) -> fmt::Result {
        match self.0 {
            Availability::Available => write!(f, "available"),
            Availability::Unavailable { since } => write!(f, "unavailable since {since}"),
        }
    }
}
