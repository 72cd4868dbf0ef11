// What a path keeps of its last slots, and what the close of a slot makes of it: the defect, its kind, availability and the record.
//
// The state is a few octets: two rows of eleven counts, of which the last is the open slot's. `specs/View.antt` says which state of
// the crate `rules` it stands for; each step here is that machine's step, so what `rules` proves of the machine holds of this code.
#![tactic(auto)]

pub mod close;
pub mod state;
pub mod sums;

pub use state::{Availability, Defect, LIMIT, Record, State};
pub use sums::{Sums, sum_last};
