// One path's field of the image: 79 octets.
//
// `specs/Field.antt` lays the octets out and says which path they read as and which octets are a field, `specs/Law.antt` that octets
// are a field exactly where they are the layout of a path that obeys the rules of the image.
#![tactic(auto)]

pub mod reading;
pub mod testing;
pub mod writing;

pub use reading::path_of;
pub use testing::is_field;
pub use writing::write;
