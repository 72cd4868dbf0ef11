// The payload behind the OAM alert label: 44 octets, one of CV, FFD, FDI and BDI (ITU-T Y.1711).
//
// `read` gives the fields of the type's row, `ttsi` the part that holds the TTSI, `write` the octets of given fields.
// `specs/Layout.antt` says what the octets are, `specs/Law.antt` what is proved of reading and writing together.
// Nothing here keeps a state, copies a payload or asks anything of its caller.
#![tactic(auto)]

mod bip16;
pub mod found;
pub mod layout;
pub mod rates;
pub mod reading;
pub mod writing;

pub use found::Found;
pub use layout::{DefectType, FunctionType, LENGTH, Unknown, is_ttsi};
pub use rates::{Kind, Rate};
pub use reading::{read, ttsi, ttsi_place};
pub use writing::write;
