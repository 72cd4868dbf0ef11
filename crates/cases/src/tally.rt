// The cases told and those that failed.
use crate::build::Events;
use crate::feed;
use std::io;

#[derive(Drop)]
pub(crate) struct Tally<'a, R> {
    rt: &'a R,
    cases: u32,
    failures: u32,
}

impl<'a, R: Print> Tally<'a, R> {
    pub(crate) fn new(rt: &'a R) -> Tally<'a, R> {
        Tally {
            rt,
            cases: 0,
            failures: 0,
        }
    }

    // With a case whose name is printed.
    fn told(&mut self, passes: bool) -> io::Result<()> {
        self.cases = self.cases.saturating_add(1);
        if passes {
            println!(self.rt; " pass")
        } else {
            self.failures = self.failures.saturating_add(1);
            println!(self.rt; " fail")
        }
    }

    // A number that must be another.
    pub(crate) fn number(&mut self, name: &str, is: u64, must: u64) -> io::Result<()> {
        print!(self.rt; "{name}:")?;
        if is != must {
            print!(self.rt; " {is}")?;
        }
        self.told(is == must)
    }

    // A stream and its text.
    pub(crate) fn stream(&mut self, name: &str, s: &[u8], text: &str) -> io::Result<()> {
        print!(self.rt; "{name}:")?;
        let passes = feed::is_text(self.rt, s, text)?;
        self.told(passes)
    }

    pub(crate) fn built(&mut self, name: &str, s: &Events, text: &str) -> io::Result<()> {
        self.stream(name, s.as_slice(), text)
    }

    // A path of a kind with a row of slots.
    pub(crate) fn kind_row(
        &mut self,
        name: &str,
        kind: u8,
        row: &[u8],
        text: &str,
    ) -> io::Result<()> {
        let mut s = Events::new();
        s.path(kind, 0)?;
        s.slots(0, kind, row)?;
        self.built(name, &s, text)
    }

    // A CV path with a row of slots.
    pub(crate) fn row(&mut self, name: &str, row: &[u8], text: &str) -> io::Result<()> {
        self.kind_row(name, 0, row, text)
    }

    pub(crate) fn show(&self) -> io::Result<()> {
        let cases = self.cases;
        let failures = self.failures;
        println!(self.rt; "cases, failures: {cases} {failures}")
    }
}
