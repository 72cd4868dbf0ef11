// The records program's rules, run: a line a case, its name first, then pass or fail. Each stream is fed in one piece, octet by octet, and
// in pieces of 7 octets with room for one line; each text was worked out from the paper.
#![tactic(auto)]

mod build;
mod feed;
mod framing;
mod packets;
mod paper;
mod paths;
mod refusals;
mod rows;
mod tally;
mod unheeded;

use std::io;
use tally::Tally;
use unheeded::Unheeded;

fn told(rt: &impl Print) -> io::Result<()> {
    let mut t = Tally::new(rt);
    paper::cases(&mut t)?;
    framing::cases(&mut t)?;
    refusals::cases(&mut t)?;
    rows::cases(&mut t)?;
    paths::cases(&mut t)?;
    t.show()
}

fn main(rt: HostRuntime) {
    told(&Unheeded(&rt)).ok();
}
