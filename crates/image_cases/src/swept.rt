// Each octet of the three paths' image changed to each other value, a line for each part of it.
use crate::compare::{FILL, checksum};
use crate::three;
use crate::three::{Image, SIZE};
use std::io;
use std::ops::Range;
use table::Table;

// The parts of a path's field, by the first octet and how many.
const PARTS: [(&str, usize, usize); 15] = [
    ("tag and length", 0, 3),
    ("kind", 3, 1),
    ("TTSI", 4, 20),
    ("DL", 24, 4),
    ("closed", 28, 8),
    ("E", 36, 11),
    ("U", 47, 11),
    ("code", 58, 2),
    ("stood", 60, 1),
    ("unavailable", 61, 1),
    ("since", 62, 8),
    ("server", 70, 1),
    ("left", 71, 2),
    ("DT", 73, 2),
    ("FDI's DL", 75, 4),
];

// How many were accepted and how many refused, and of the accepted those that are saved again as they were.
#[derive(Clone, Copy, Default)]
struct Sweep {
    accepted: u32,
    refused: u32,
    same: u32,
}

// Whether a table is saved as the octets.
fn is_saved_as(t: Table, q: &Image) -> bool {
    let mut b = [FILL; SIZE];
    image::save(t, &mut b).is_ok() && b == *q
}

impl Sweep {
    // With what restoring answers, and whether saving again gives the same octets.
    fn look(&mut self, q: &Image) {
        let Ok(t) = image::restore(q) else {
            self.refused = self.refused.saturating_add(1);
            return;
        };
        self.accepted = self.accepted.saturating_add(1);
        if is_saved_as(t, q) {
            self.same = self.same.saturating_add(1);
        }
    }

    // With the octets of a part, each changed to each other value. By offset: the place that is changed is what is tried.
    fn sweep(&mut self, p: &Image, part: Range<usize>) {
        for at in part {
            for x in 1..=255 {
                let mut q = *p;
                if at < SIZE {
                    q[at] ^= x;
                }
                self.look(&q);
            }
        }
    }

    fn add(&mut self, other: Sweep) {
        self.accepted = self.accepted.saturating_add(other.accepted);
        self.refused = self.refused.saturating_add(other.refused);
        self.same = self.same.saturating_add(other.same);
    }

    fn show(self, rt: &impl Print) -> io::Result<()> {
        let Sweep {
            accepted,
            refused,
            same,
        } = self;
        println!(rt;
            " changed, accepted, refused, saved again the same: {accepted} {refused} {same}"
        )
    }
}

pub(crate) fn claims(rt: &impl Print) -> io::Result<()> {
    let p = three::saved();
    let n = image::length(three::table());
    let (a, b) = checksum(&p);
    println!(rt; "three paths, length, checksum: {n} {a} {b}")?;
    let mut all = Sweep::default();
    all.sweep(&p, 0..5);
    print!(rt; "each octet of header")?;
    all.show(rt)?;
    for (words, from, many) in PARTS {
        let mut part = Sweep::default();
        for field in [5, 84, 163] {
            part.sweep(&p, field + from..field + from + many);
        }
        print!(rt; "each octet of {words}")?;
        part.show(rt)?;
        all.add(part);
    }
    print!(rt; "each octet")?;
    all.show(rt)
}
