// Lent buffers of every length.
use crate::compare::{FILL, left};
use crate::counts::Counts;
use crate::samples::{Fields, Sample, T, samples};
use payload::FunctionType;
use std::io;

const SIZE: usize = 64;

// The first 0 to 64 of 64 octets of aa; how many times all 64 were left.
fn claim_sizes(rt: &impl Print, sample: Sample) -> io::Result<()> {
    let name = sample.name;
    let mut answers = Counts::none();
    let mut kept = 0u32;
    for size in 0..=SIZE {
        let mut b = [FILL; SIZE];
        answers.count(refusal::number(sample.write(&mut b[..size])));
        kept = kept.saturating_add(u32::from(left(&b) as usize == SIZE));
    }
    println!(rt; "{name}, written into 0 to 64 octets of aa, answer:times{answers}")?;
    println!(rt; "{name}, so written, buffers left as they were: {kept}")
}

pub(crate) fn claims(rt: &impl Print) -> io::Result<()> {
    for sample in samples() {
        claim_sizes(rt, sample)?;
    }
    let refused = [
        ("CV", Fields::of_type(FunctionType::Cv as u8)),
        ("type 0", Fields::of_type(0)),
        ("FFD rate 0", Fields::ffd(0)),
        ("FDI DT 0000", Fields::defect(FunctionType::Fdi as u8, 0, 0)),
    ];
    for (words, fields) in refused {
        let mut b = [FILL; 43];
        let number = refusal::number(fields.write(&T, &mut b));
        let kept = left(&b);
        println!(rt;
            "{words} with T into 43 octets of aa, answer, octets untouched: {number} {kept}"
        )?;
    }
    Ok(())
}
