// The edges of the payload, run: a line a claim, its words first, then numbers that can be reckoned by hand.
#![tactic(auto)]

mod compare;
mod counts;
mod damaged;
mod lent;
mod samples;
mod swept;
mod tables;
mod ttsis;
mod unheeded;
mod written;

use std::io;
use unheeded::Unheeded;

fn claims(rt: &impl Print) -> io::Result<()> {
    written::claims(rt)?;
    damaged::claims(rt)?;
    swept::claims(rt)?;
    tables::claims(rt)?;
    lent::claims(rt)?;
    ttsis::claims(rt)
}

fn main(rt: HostRuntime) {
    claims(&Unheeded(&rt)).ok();
}
