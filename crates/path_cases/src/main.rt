// The edges of one path, run: a line a claim, its words first, then what can be held against the paper by hand. Last comes a long
// random run, held close by close against a plain recount of the same packets.
#![tactic(auto)]

mod limit;
mod lives;
mod long;
mod numbers;
mod outgoing;
mod paths;
mod receiving;
mod recount;
mod seen;
mod shown;
mod source;
mod tally;
mod unheeded;
mod writing;

use std::io;
use unheeded::Unheeded;

fn claims(rt: &impl Print) -> io::Result<()> {
    numbers::claims(rt)?;
    outgoing::claims(rt)?;
    lives::claims(rt)?;
    receiving::claims(rt)?;
    writing::claims(rt)?;
    limit::claims(rt)?;
    long::claims(rt)
}

fn main(rt: HostRuntime) {
    claims(&Unheeded(&rt)).ok();
}
