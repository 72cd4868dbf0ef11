// TTSIs of every length, and tunnel numbers that do not begin with two zeros.
use crate::counts::Counts;
use crate::samples::{Fields, Sample, p1, samples};
use payload::LENGTH;
use std::io;

// What a write with the TTSI answers, by its number.
fn answer(fields: Fields, ttsi: &[u8]) -> u8 {
    let mut b = [0; LENGTH];
    refusal::number(fields.write(ttsi, &mut b))
}

// TTSIs of so many zeros.
fn lengths(fields: Fields) -> Counts {
    let mut answers = Counts::none();
    for n in 0..=64 {
        answers.count(answer(fields, &[0; 64][..n]));
    }
    answers
}

// Octets 16 and 17, 255 values of each. By offset: the place that is changed is what is tried.
fn tunnels(sample: Sample) -> Counts {
    let mut answers = Counts::none();
    for at in 16..18 {
        for x in 1..=255 {
            let mut t = sample.ttsi;
            t[at] = x;
            answers.count(answer(sample.fields, &t));
        }
    }
    answers
}

fn claim(rt: &impl Print, words: &str, t: &[u8]) -> io::Result<()> {
    let is_ttsi = u8::from(payload::is_ttsi(t));
    let number = answer(p1().fields, t);
    println!(rt; "{words}, whether they are a TTSI, answer as CV: {is_ttsi} {number}")
}

pub(crate) fn claims(rt: &impl Print) -> io::Result<()> {
    for sample in samples() {
        let name = sample.name;
        let lengths = lengths(sample.fields);
        println!(rt; "{name}, written with a TTSI of 0 to 64 zeros, answer:times{lengths}")?;
        let tunnels = tunnels(sample);
        println!(rt;
            "{name}, written with each value but 0 in octet 16 or 17 of the TTSI, answer:times{tunnels}"
        )?;
    }
    claim(rt, "19 zeros", &[0; 19])?;
    claim(rt, "20 zeros", &[0; 20])?;
    claim(rt, "21 zeros", &[0; 21])?;
    let mut t = [0; 20];
    t[16] = 1;
    claim(rt, "20 zeros but octet 16", &t)?;
    let mut t = [0; 20];
    t[17] = 1;
    claim(rt, "20 zeros but octet 17", &t)
}
