// How often each number came.
use std::fmt;

// Each program has its own: in a crate of theirs each call would need a promise and two wrong answers, and be longer for it.
#[derive(Clone, Copy)]
pub(crate) struct Counts([u32; 256]);

impl Counts {
    pub(crate) fn none() -> Counts {
        Counts([0; 256])
    }

    pub(crate) fn count(&mut self, number: u8) {
        let n = &mut self.0[usize::from(number)];
        *n = n.saturating_add(1);
    }
}

// Each number that came, and how often.
impl fmt::Display for Counts {
    fn fmt<W: fmt::Write>(&self, f: &mut fmt::Formatter<W>) -> fmt::Result {
        for (number, n) in self.0.iter().enumerate() {
            if *n != 0 {
                write!(f, " {number}:{n}")?;
            }
        }
        Ok(())
    }
}
