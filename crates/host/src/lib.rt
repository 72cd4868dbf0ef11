// The calls of C. Node software holds the table only as its image, in a lent buffer of 5,061 octets or more.
//
// `specs/Calls.antt` says each call by the table's own: restoring, the table's call, saving, with the octets behind
// the image as they were. The code restores no table: it tests the image where it lies, takes one record out by value,
// steps it, and puts its octets back.
#![tactic(auto)]

pub mod adding;
pub mod answer;
pub mod calls;
pub mod record;
pub mod steps;
pub mod writing;
