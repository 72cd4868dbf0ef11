// FDI and BDI written from a path after slot 3 into so many of 50 octets of aa.
use crate::outgoing::Came;
use crate::paths;
use lsp::Lsp;
use payload::{Found, LENGTH};
use refusal::Refusal;
use std::{fmt, io};

// What a buffer holds before a call writes into it.
const FILL: u8 = 0xAA;

// What came, the server signal, and how many octets are lent.
const CLAIMS: [(u32, u32, u32, u8, usize); 10] = [
    (3, 0, 0, 0, 50),
    (3, 0, 0, 0, 43),
    (0, 0, 0, 0, 43),
    (0, 0, 0, 0, 44),
    (0, 0, 0, 0, 50),
    (0, 0, 0, 1, 50),
    (0, 0, 1, 0, 50),
    (0, 1, 0, 0, 50),
    (1, 1, 1, 0, 50),
    (5, 0, 0, 0, 50),
];

#[derive(Drop)]
struct Read(Result<Found, Refusal>);

impl fmt::Display for Read {
    fn fmt<W: fmt::Write>(&self, f: &mut fmt::Formatter<W>) -> fmt::Result {
        match self.0 {
            Ok(Found::Cv) => write!(f, "CV"),
            Ok(Found::Ffd { .. }) => write!(f, "FFD"),
            Ok(Found::Fdi { dt, dl }) => write!(f, "FDI {:04x} {dl:08x}", dt as u16),
            Ok(Found::Bdi { dt, dl }) => write!(f, "BDI {:04x} {dl:08x}", dt as u16),
            Err(_) => write!(f, "no payload"),
        }
    }
}

// How many octets are x.
fn count(octets: &[u8], x: u8) -> usize {
    octets.iter().filter(|octet| **octet == x).count()
}

// The payload, how many octets of its TTSI are zero, and how many after it are aa.
fn read_back(rt: &impl Print, b: &[u8; 50]) -> io::Result<()> {
    let (p, after) = b.split_at(LENGTH);
    let read = Read(payload::read(p));
    let zeros = count(payload::ttsi(p), 0);
    let left = count(after, FILL);
    print!(rt; ", read back, zeros of its TTSI, octets of aa after it: {read} {zeros} {left}")
}

fn written<F: Fn(Lsp, &mut [u8]) -> Result<(), Refusal>>(
    rt: &impl Print,
    path: Lsp,
    size: usize,
    write: F,
) -> io::Result<()>
    requires { F.IsAlwaysCallable write }
{
    let mut b = [FILL; 50];
    let number = refusal::number(write(path, &mut b[..size.min(50)]));
    let left = count(&b, FILL);
    print!(rt; " {number}, octets of aa left: {left}")?;
    if number == 0 {
        read_back(rt, &b)?;
    }
    println!(rt; "")
}

// By the call of each name.
fn claims_of<F: Fn(Lsp, &mut [u8]) -> Result<(), Refusal>>(
    rt: &impl Print,
    name: &str,
    write: F,
) -> io::Result<()>
    requires { F.IsAlwaysCallable write }
{
    for (own, other, fdis, server, size) in CLAIMS {
        let came = Came {
            own,
            other,
            fdis,
            server,
        };
        print!(rt; "{came}, {name} into {size} octets, answer:")?;
        written(rt, paths::closed(came.path()), size, &write)?;
    }
    Ok(())
}

pub(crate) fn claims(rt: &impl Print) -> io::Result<()> {
    claims_of(rt, "FDI", |path, buf| path.write_fdi(buf))?;
    claims_of(rt, "BDI", |path, buf| path.write_bdi(buf))
}
