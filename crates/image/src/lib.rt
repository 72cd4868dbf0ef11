// The table's image: its length, saving and restoring.
//
// `specs/Image.antt` has one function from tables to octets and says what each call answers and leaves; `specs/Law.antt` says that restoring
// accepts octets with a table exactly when the table obeys the rules and the octets are its own.
#![tactic(auto)]

ghost use Rattle.std.specs.Prelude.{◌≡◌};
ghost use Rattle.image.specs.Image.{head_of};

mod fields;
pub mod marks;
pub mod restoring;
pub mod saving;

pub use marks::same_octets;
pub use restoring::{begins, restore};
pub use saving::{length, save};

// The octets of an image before its fields, and those of a field.
const HEAD: usize = 5;

const FIELD: usize = 79;

type Field = [u8; FIELD];

// The head of the image of n paths: tag 01, length 2, version 01 and the number.
fn head(n: u8) -> [u8; HEAD]
    ensures { result ≡ head_of n }
{
    [1, 0, 2, 1, n]
}
