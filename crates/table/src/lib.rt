// Up to 64 paths in one table, by value: each call takes the table and hands the next one back beside its answer.
//
// `specs/Steps.antt` says what each call answers and leaves, `specs/Laws.antt` that a call on one path leaves the others as they
// were and a refusal leaves the table as it was, `specs/Lawful.antt` that a table made by any calls obeys the rules of the image.
#![tactic(auto)]

pub mod add;
pub mod calls;
pub mod paths;

pub use paths::{MOST, Table};
