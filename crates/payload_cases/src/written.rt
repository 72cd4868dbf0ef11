// P1 to P4, written, read, and written again.
use crate::compare::{Outcome, alike};
use crate::samples::{Fields, Payload, Sample, samples};
use std::{fmt, io};

impl fmt::Display for Outcome {
    fn fmt<W: fmt::Write>(&self, f: &mut fmt::Formatter<W>) -> fmt::Result {
        let Outcome {
            answer,
            alike,
            left,
        } = *self;
        let number = refusal::number(answer);
        write!(
            f,
            "answer, octets the same, octets after them untouched: {number} {alike} {left}"
        )
    }
}

fn read(rt: &impl Print, name: &str, p: &Payload) -> io::Result<()> {
    let number = refusal::number(payload::read(p));
    let Fields { ty, rate, dt, dl } = Fields::read(p);
    println!(rt;
        "{name}, read back, number, type, rate, DT, DL: {number} {ty:02x} {rate:02x} {dt:04x} {dl:08x}"
    )
}

// A writer looks at no fields but those that the row names.
fn claims_of(rt: &impl Print, sample: Sample) -> io::Result<()> {
    let name = sample.name;
    let p = sample.payload();
    let bip16 = u16::from_be_bytes([p[42], p[43]]);
    println!(rt; "{name}, BIP16: {bip16:04x}")?;
    read(rt, name, &p)?;
    let ttsi = alike(&sample.ttsi, payload::ttsi(&p));
    println!(rt; "{name}, octets of the TTSI handed back as they were given: {ttsi}")?;
    let again = Outcome::again(&p);
    println!(rt; "{name}, what was read written again into 50 octets of aa, {again}")?;
    let crowded = Outcome::of(&p, sample.fields.crowded(), &sample.ttsi);
    println!(rt; "{name}, written with all ones in the fields of other rows, {crowded}")
}

pub(crate) fn claims(rt: &impl Print) -> io::Result<()> {
    for sample in samples() {
        claims_of(rt, sample)?;
    }
    Ok(())
}
