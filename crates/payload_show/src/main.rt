// The payloads P1 to P4 of the paper, a line each: written from their fields, shown octet by octet, and read back.
#![tactic(auto)]

use payload::{DefectType, Found, FunctionType, LENGTH, Rate};
use refusal::Refusal;
use std::{fmt, io};

// Each program has its own: in a crate of theirs each call would need a promise and two wrong answers, and be longer for it.
const T: [u8; 20] = *b"\0\0\0\0\0\0\0\0\0\0\xff\xff\xc0\x00\x02\x01\0\0\0\x07";

// Octets, two hexadecimal digits each.
#[derive(Clone, Copy)]
struct Octets<'a>(&'a [u8]);

impl<'a> fmt::Display for Octets<'a> {
    fn fmt<W: fmt::Write>(&self, f: &mut fmt::Formatter<W>) -> fmt::Result {
        for octet in self.0 {
            write!(f, "{octet:02x}")?;
        }
        Ok(())
    }
}

// What the reader answers.
#[derive(Drop)]
struct Read(Result<Found, Refusal>);

impl fmt::Display for Read {
    fn fmt<W: fmt::Write>(&self, f: &mut fmt::Formatter<W>) -> fmt::Result {
        match self.0 {
            Ok(Found::Cv) => write!(f, "CV"),
            Ok(Found::Ffd { rate }) => write!(f, "FFD rate {rate}: {} ms", Rate::interval(rate)),
            Ok(Found::Fdi { dt, dl }) => write!(f, "FDI dt {:04x} dl {dl:08x}", dt as u16),
            Ok(Found::Bdi { dt, dl }) => write!(f, "BDI dt {:04x} dl {dl:08x}", dt as u16),
            Err(refusal) => write!(f, "refused {}", u8::from(refusal)),
        }
    }
}

// A line of the table. The TTSI's column is the part that the TTSI call hands back.
fn line(rt: &impl Print, name: &str, p: &[u8; LENGTH]) -> io::Result<()> {
    let head = Octets(&p[..1]);
    let reserved = Octets(&p[1..2]);
    let dt = Octets(&p[2..4]);
    let ttsi = Octets(payload::ttsi(p));
    let rest = Octets(&p[24..42]);
    let bip16 = Octets(&p[42..]);
    let read = Read(payload::read(p));
    println!(rt; "{name:<5}{head} {reserved} {dt} {ttsi} {rest} {bip16}  {read}")
}

// What the writer makes of the fields; where it refuses them, zeros, which the reader refuses.
fn row(
    rt: &impl Print,
    name: &str,
    ty: FunctionType,
    ttsi: &[u8],
    rate: u8,
    dt: u16,
    dl: u32,
) -> io::Result<()> {
    let mut p = [0; LENGTH];
    payload::write(ty as u8, ttsi, rate, dt, dl, &mut p).ok();
    line(rt, name, &p)
}

fn defect_row(rt: &impl Print, name: &str, ty: FunctionType) -> io::Result<()> {
    row(
        rt,
        name,
        ty,
        &[0; 20],
        0,
        DefectType::Locv as u16,
        0x0000_FDE8,
    )
}

fn rows(rt: &impl Print) -> io::Result<()> {
    println!(rt; "{:<57}{:<37}42-43 read", "type 0  1  2-3  4-23", "24-41")?;
    row(rt, "CV", FunctionType::Cv, &T, 0, 0, 0)?;
    row(rt, "FFD", FunctionType::Ffd, &T, 3, 0, 0)?;
    defect_row(rt, "FDI", FunctionType::Fdi)?;
    defect_row(rt, "BDI", FunctionType::Bdi)
}

// Prints, and drops a write that fails: a line that could not be written is no failure of the payload, and the next is
// printed all the same. Each program has its own, as T.
#[derive(Clone, Copy)]
struct Unheeded<'a, R>(&'a R);

impl<R: Print> Print for Unheeded<'_, R> {
    fn print<D: fmt::Display + Drop>(&self, value: D) -> io::Result<()> {
        self.0.print(value).ok();
        Ok(())
    }

    fn println<D: fmt::Display + Drop>(&self, value: D) -> io::Result<()> {
        self.0.println(value).ok();
        Ok(())
    }

    fn write_all(&self, bytes: &[u8]) -> io::Result<()> {
        self.0.write_all(bytes).ok();
        Ok(())
    }
}

fn main(rt: HostRuntime) {
    rows(&Unheeded(&rt)).ok();
}
