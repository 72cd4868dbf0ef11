// Saving and restoring, run: tables drawn from seeds, an image of three paths with each octet changed, and damages made by hand. A line
// a claim, its words first, then what can be held against the paper by hand.
#![tactic(auto)]

mod census;
mod compare;
mod drawn;
mod named;
mod packets;
mod saved;
mod source;
mod swept;
mod three;
mod unheeded;

use std::io;
use unheeded::Unheeded;

fn claims(rt: &impl Print) -> io::Result<()> {
    saved::claims(rt)?;
    census::claims(rt)?;
    swept::claims(rt)?;
    named::claims(rt)
}

fn main(rt: HostRuntime) {
    claims(&Unheeded(&rt)).ok();
}
