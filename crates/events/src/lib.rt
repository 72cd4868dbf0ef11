// The records program's input, field by field, and the lines that it prints, over lent slices.
//
// `specs/Framing.antt` says which octets are an event, `specs/Lines.antt` what a line is, `specs/Printed.antt` what is
// printed for a whole input. `specs/Law.antt` says that pieces of any size give the same lines, and that the paths are
// those that the theorem of `history` speaks of.
#![tactic(auto)]

pub mod framing;
pub mod lines;
pub mod own;
pub mod paths;
pub mod reckoning;
pub mod steps;

pub use framing::{Rest, frame};
pub use reckoning::{Ran, Reckoning};
