// What a path answers to a payload, and what of it the payload changes.
use crate::paths;
use crate::paths::Payload;
use lsp::Lsp;
use payload::FunctionType;
use std::io;

// The path's kind, and the payload's type and rate.
const CLAIMS: [(u8, &str, FunctionType, u8); 10] = [
    (0, "CV", FunctionType::Cv, 0),
    (0, "FFD rate 1", FunctionType::Ffd, 1),
    (0, "FFD rate 3", FunctionType::Ffd, 3),
    (0, "FDI", FunctionType::Fdi, 0),
    (0, "BDI", FunctionType::Bdi, 0),
    (3, "CV", FunctionType::Cv, 0),
    (3, "FFD rate 3", FunctionType::Ffd, 3),
    (3, "FFD rate 4", FunctionType::Ffd, 4),
    (3, "FDI", FunctionType::Fdi, 0),
    (3, "BDI", FunctionType::Bdi, 0),
];

// A path of the kind whose open slot has no packet, with LOCV and an FDI standing and the server signal on.
fn busy(kind: u8) -> Lsp {
    let path = paths::silent(paths::path(kind), 4);
    paths::server(paths::told(path, 1), 1)
}

// The rest of a line that says what comes to a path of the kind.
fn receive(rt: &impl Print, kind: u8, p: &[u8]) -> io::Result<()> {
    let before = busy(kind);
    let (number, after) = match before.receive(p) {
        Ok((_, after)) => (0, after),
        Err(refusal) => (u8::from(refusal), before),
    };
    let e = after.state.e[10];
    let u = after.state.u[10];
    let unchanged = u8::from(after == before);
    println!(rt; ", answer, E and U of the open slot, path unchanged: {number} {e} {u} {unchanged}")
}

fn claims_of(rt: &impl Print, own: bool) -> io::Result<()> {
    let ttsi = if own { "" } else { " of another TTSI" };
    for (kind, name, ty, rate) in CLAIMS {
        print!(rt; "kind {kind} receives {name}{ttsi}")?;
        receive(rt, kind, &paths::packet(ty, own, rate, 2))?;
    }
    Ok(())
}

// The first 43 octets.
// A function of its own, for beside the runtime's type the search for its proof reaches its limit.
fn cut(p: &Payload) -> &[u8] {
    &p[..43]
}

// A CV with the bits of x turned at an offset.
fn turned(at: usize, x: u8) -> Payload {
    let mut p = paths::cv(true);
    if at < p.len() {
        p[at] ^= x;
    }
    p
}

// And in BIP16 too.
fn turned_right(at: usize, x: u8) -> Payload {
    let mut p = turned(at, x);
    p[42 + at % 2] ^= x;
    p
}

fn claim_turned(rt: &impl Print, at: usize, x: u8) -> io::Result<()> {
    print!(rt; "kind 0 receives CV, at offset {at} turned by {x}, BIP16 made right")?;
    receive(rt, 0, &turned_right(at, x))
}

pub(crate) fn claims(rt: &impl Print) -> io::Result<()> {
    claims_of(rt, true)?;
    claims_of(rt, false)?;
    print!(rt; "kind 0 receives CV, cut to 43 octets")?;
    receive(rt, 0, cut(&paths::cv(true)))?;
    print!(rt; "kind 0 receives CV, at offset 43 turned by 1")?;
    receive(rt, 0, &turned(43, 1))?;
    claim_turned(rt, 0, 4)?;
    claim_turned(rt, 41, 1)
}
