// The paper's rules, each by looking back over a path's kept counts from the slot that it is about.
use crate::paths::Path;
use std::fmt;

// What a slot met by the sums over three slots.
#[derive(Clone, Copy, PartialEq, Eq)]
enum Verdict {
    Entry,
    Exit,
}

#[derive(Clone, Copy)]
pub(crate) enum Record {
    U { from: usize, until: usize },
    B { from: usize, until: usize },
}

impl fmt::Display for Record {
    fn fmt<W: fmt::Write>(&self, f: &mut fmt::Formatter<W>) -> fmt::Result {
        match self {
            Record::U { from, until } => write!(f, "U {from} {until}"),
            Record::B { from, until } => write!(f, "B {from} {until}"),
        }
    }
}

impl Path {
    // Entry or exit, if either; before slot 3 closes nothing is met.
    fn met(&self, n: usize) -> Option<Verdict> {
        if n < 3 {
            return None;
        }
        match (self.expected.sum(n, 3), self.others.sum(n, 3)) {
            (1, 0) => None,
            (2..=4, 0) => Some(Verdict::Exit),
            _ => Some(Verdict::Entry),
        }
    }

    // Whether the defect stands after n.
    fn stands(&self, n: usize) -> bool {
        (1..=n).rev().find_map(|m| self.met(m)) == Some(Verdict::Entry)
    }

    // Whether the defect stood at all eleven closes m-10 to m.
    fn declares(&self, m: usize) -> bool {
        m >= 11 && (m - 10..=m).rev().all(|i| self.stands(i))
    }

    // Whether the close of j had no defect, 9 to 11 expected packets over ten slots, and no other.
    fn is_calm(&self, j: usize) -> bool {
        matches!(self.expected.sum(j, 10), 9..=11) && self.others.sum(j, 10) == 0 && !self.stands(j)
    }

    // Whether the path is unavailable after n: of the slots that declare or are calm, the latest declares.
    fn is_unavailable(&self, n: usize) -> bool {
        let latest = (1..=n).rev().find(|&m| self.is_calm(m) || self.declares(m));
        latest.is_some_and(|m| self.declares(m))
    }

    // The first slot that declares since the last calm one before n, or since the start.
    fn first_declaring(&self, n: usize) -> Option<usize> {
        (1..n)
            .rev()
            .take_while(|&m| !self.is_calm(m))
            .filter(|&m| self.declares(m))
            .last()
    }

    // The first close of the unbroken run of closes up to n at which the defect stood.
    fn entered(&self, n: usize) -> Option<usize> {
        (1..=n).rev().take_while(|&m| self.stands(m)).last()
    }

    // Whether the path was available at all closes from a to b.
    fn was_available(&self, a: usize, b: usize) -> bool {
        (a..=b).rev().all(|m| !self.is_unavailable(m))
    }

    // U, where n clears. Nothing is met before slot 3, so neither here nor below does a subtraction stop at 0.
    fn outage(&self, n: usize) -> Option<Record> {
        self.first_declaring(n).map(|first| Record::U {
            from: first.saturating_sub(12),
            until: n.saturating_sub(9),
        })
    }

    // B, where the defect that stood after the slot before n left at n, and the path was available all the while.
    fn short_break(&self, n: usize) -> Option<Record> {
        if self.stands(n) {
            return None;
        }
        let first = self.entered(n.saturating_sub(1))?;
        self.was_available(first.saturating_sub(1), n)
            .then_some(Record::B {
                from: first.saturating_sub(2),
                until: n.saturating_sub(2),
            })
    }

    // The record that the close of slot n ends, if any; not two, since where n clears the path was unavailable.
    pub(crate) fn ended_by(&self, n: usize) -> Option<Record> {
        if self.is_calm(n) && self.is_unavailable(n.saturating_sub(1)) {
            self.outage(n)
        } else {
            self.short_break(n)
        }
    }
}
