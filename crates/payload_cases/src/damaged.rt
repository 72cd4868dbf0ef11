// Payloads of another length, with a bit changed, and with an octet changed and BIP16 put right.
use crate::compare::Outcome;
use crate::counts::Counts;
use crate::samples::{Payload, p1, samples};
use std::io;

// What damaged payloads were answered, and how many octets of each were handed back as its TTSI.
struct Damages {
    answers: Counts,
    ttsis: Counts,
}

impl Damages {
    fn none() -> Damages {
        Damages {
            answers: Counts::none(),
            ttsis: Counts::none(),
        }
    }

    fn look(&mut self, p: &Payload) {
        self.answers.count(refusal::number(payload::read(p)));
        let ttsi = payload::ttsi(p).len();
        self.ttsis.count(u8::try_from(ttsi).unwrap_or(u8::MAX));
    }
}

// Each of the 352 bits. By offset, here and below: the place that is damaged is what is tried.
fn bits(p: &Payload) -> Damages {
    let mut damages = Damages::none();
    for at in 0..44 {
        for bit in [1, 2, 4, 8, 16, 32, 64, 128] {
            let mut q = *p;
            q[at] ^= bit;
            damages.look(&q);
        }
    }
    damages
}

// 42 octets, 255 other values of each; how many of these come back octet for octet when they are written again.
fn octets(p: &Payload) -> (Damages, u32) {
    let mut damages = Damages::none();
    let mut back = 0u32;
    for at in 0..42 {
        for x in 1..=255 {
            let mut q = *p;
            q[at] ^= x;
            q[42 + at % 2] ^= x;
            damages.look(&q);
            if Outcome::again(&q) == Outcome::WHOLE {
                back = back.saturating_add(1);
            }
        }
    }
    (damages, back)
}

// P1 with zeros after it.
fn longer() -> [u8; 64] {
    let mut p = [0; 64];
    p1().write(&mut p).ok();
    p
}

// The answer to the first n octets, by its number.
fn answer(p: &[u8; 64], n: usize) -> u8 {
    refusal::number(payload::read(&p[..n.min(64)]))
}

fn claim_lengths(rt: &impl Print) -> io::Result<()> {
    let p = longer();
    let mut counts = Counts::none();
    for n in 0..=64 {
        counts.count(answer(&p, n));
    }
    println!(rt;
        "P1 CV, cut or followed by zeros to each length from 0 to 64, answer:times{counts}"
    )?;
    let none = answer(&p, 0);
    let less = answer(&p, 43);
    let more = answer(&p, 45);
    println!(rt; "P1 CV, so at 0, 43 and 45 octets, answers: {none} {less} {more}")
}

fn claim_bits(rt: &impl Print, name: &str, p: &Payload) -> io::Result<()> {
    let Damages { answers, ttsis } = bits(p);
    println!(rt; "{name}, each bit changed by itself, answer:times{answers}")?;
    println!(rt; "{name}, so damaged, octets of TTSI handed back:times{ttsis}")
}

fn claim_octets(rt: &impl Print, name: &str, p: &Payload) -> io::Result<()> {
    let (Damages { answers, ttsis }, back) = octets(p);
    println!(rt;
        "{name}, each octet of 0 to 41 changed to each other value and BIP16 made right, answer:times{answers}"
    )?;
    println!(rt; "{name}, so changed, octets of TTSI handed back:times{ttsis}")?;
    println!(rt; "{name}, so changed, accepted and written again octet for octet: {back}")
}

pub(crate) fn claims(rt: &impl Print) -> io::Result<()> {
    claim_lengths(rt)?;
    for sample in samples() {
        let p = sample.payload();
        claim_bits(rt, sample.name, &p)?;
        claim_octets(rt, sample.name, &p)?;
    }
    Ok(())
}
