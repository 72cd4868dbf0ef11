// What is counted over the closes of the long run.
use crate::seen::Seen;
use std::io;
use window::{Availability, Defect, Record};

// Closes compared and those that differ, closes with each defect and when unavailable, records, and a checksum over these.
#[derive(Clone, Copy, Default)]
pub(crate) struct Tally {
    closes: u32,
    differ: u32,
    mismatch: u32,
    mismerge: u32,
    locv: u32,
    excess: u32,
    out: u32,
    u: u32,
    b: u32,
    sum: u64,
}

fn add(n: &mut u32) {
    *n = n.saturating_add(1);
}

impl Tally {
    fn count_defect(&mut self, defect: Defect) {
        match defect {
            Defect::Clear => {}
            Defect::Mismatch => add(&mut self.mismatch),
            Defect::Mismerge => add(&mut self.mismerge),
            Defect::Locv => add(&mut self.locv),
            Defect::Excess => add(&mut self.excess),
        }
    }

    // The checksum with one record more.
    fn sum(&mut self, letter: u8, from: u64, until: u64) {
        let slots = from % 1000000007 * 7 + until % 1000000007;
        self.sum = (self.sum % 1000000007 * 31 + slots + u64::from(letter)) % 1000000007;
    }

    fn count_record(&mut self, record: Option<Record>) {
        match record {
            None => {}
            Some(Record::U { from, until }) => {
                add(&mut self.u);
                self.sum(b'U', from, until);
            }
            Some(Record::B { from, until }) => {
                add(&mut self.b);
                self.sum(b'B', from, until);
            }
        }
    }

    // One close more.
    pub(crate) fn count(&mut self, answered: Seen, recounted: Seen) {
        add(&mut self.closes);
        if answered != recounted {
            add(&mut self.differ);
        }
        self.count_defect(answered.defect);
        self.count_record(answered.record);
        if matches!(answered.availability, Availability::Unavailable { .. }) {
            add(&mut self.out);
        }
    }

    pub(crate) fn show(self, rt: &impl Print) -> io::Result<()> {
        let Tally {
            closes,
            differ,
            mismatch,
            mismerge,
            locv,
            excess,
            out,
            u,
            b,
            sum,
        } = self;
        println!(rt;
            "long run, closes compared, closes that differ from the recount: {closes} {differ}"
        )?;
        println!(rt;
            "long run, closes with Mismatch, Mismerge, LOCV, Excess: {mismatch} {mismerge} {locv} {excess}"
        )?;
        println!(rt; "long run, closes when unavailable: {out}")?;
        println!(rt; "long run, U records, B records: {u} {b}")?;
        println!(rt; "long run, checksum over the records: {sum}")
    }
}
