// The close at the limit of slots.
use crate::{paths, shown};
use lsp::Lsp;
use std::io;
use window::{Availability, Defect, State};

// A path in LOCV that has closed so many slots and had no packet in the last ten.
fn path(closed: u64) -> Lsp {
    let mut path = paths::path(0);
    path.state = State {
        closed,
        e: [0; 11],
        u: [0; 11],
        defect: Defect::Locv,
        stood: 11,
        availability: Availability::Unavailable { since: 7 },
    };
    path
}

pub(crate) fn claims(rt: &impl Print) -> io::Result<()> {
    for closed in [999999999998, 999999999999, 1000000000000] {
        let before = path(closed);
        let (number, defect, dt, next) = match before.close() {
            Ok((c, next)) => (0, c.defect, c.out.dt, next),
            Err(refusal) => (u8::from(refusal), Defect::Clear, 0, before),
        };
        let defect = shown::defect(defect);
        let unchanged = u8::from(next == before);
        let after = next.state.closed;
        println!(rt;
            "closed so far, a close's answer, kind, DT, path unchanged, closed afterwards: {closed} {number} {defect} {dt:04x} {unchanged} {after}"
        )?;
    }
    Ok(())
}
