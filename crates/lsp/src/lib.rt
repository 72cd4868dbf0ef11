// One path: its state by value, and a step for each call. A step takes the state and hands the next one back beside its answer.
//
// `specs/Steps.antt` says what each step answers and leaves, `specs/Theorem.antt` what follows for any list of steps: the defect,
// availability and every record are what the window rules give from the path's history. `specs/Sound.antt` has the rules that the image
// asks of a path, which every step keeps. One close changes a record where it stands: `specs/InPlace.antt`.
#![tactic(auto)]

pub mod close;
pub mod path;
pub mod place;
pub mod receive;
pub mod sound;
pub mod write;

pub use close::{Closed, Out};
pub use path::{Fdi, Lsp};
pub use place::close_in_place;
pub use sound::{availability_holds, code_holds, row_holds, stood_holds};
