// What states the drawn tables are in, read from their images.
use crate::compare::FILL;
use crate::drawn;
use crate::saved::SIZE;
use std::{fmt, io};

// What is counted, and where in a field it stands; of more octets than one, the last.
const ROWS: [(&str, usize); 9] = [
    ("drawn paths, kind", 3),
    ("drawn paths, closed", 35),
    ("drawn paths, E of the open slot", 46),
    ("drawn paths, U of the open slot", 57),
    ("drawn paths, code's second octet", 59),
    ("drawn paths, closes stood", 60),
    ("drawn paths, unavailable", 61),
    ("drawn paths, server", 70),
    ("drawn paths with an FDI standing, kind", 3),
];

// The row that counts only where an FDI stands.
const TOLD: usize = 8;

// How often each octet came.
// Each program has its own: in a crate of theirs each call would need a promise and two wrong answers, and be longer for it.
#[derive(Clone, Copy)]
struct Counts([u32; 256]);

impl Counts {
    fn count(&mut self, octet: u8) {
        let n = &mut self.0[usize::from(octet)];
        *n = n.saturating_add(1);
    }
}

impl fmt::Display for Counts {
    fn fmt<W: fmt::Write>(&self, f: &mut fmt::Formatter<W>) -> fmt::Result {
        for (octet, n) in self.0.iter().enumerate() {
            if *n != 0 {
                write!(f, " {octet}:{n}")?;
            }
        }
        Ok(())
    }
}

type Census = [Counts; 9];

// Whether the field has closes left.
fn is_told(field: &[u8; 79]) -> bool {
    field[71] != 0 || field[72] != 0
}

fn field(census: &mut Census, field: &[u8; 79]) {
    for (row, (_, place)) in ROWS.iter().enumerate() {
        if row != TOLD || is_told(field) {
            census[row].count(field[*place]);
        }
    }
}

fn table(census: &mut Census, paths: u64, seed: u64) {
    let mut b = [FILL; SIZE];
    image::save(drawn::table(paths, seed), &mut b).ok();
    for (_, part) in (0..paths).zip(b[5..].chunks_exact(79)) {
        if let Some(part) = part.first_chunk() {
            field(census, part);
        }
    }
}

pub(crate) fn claims(rt: &impl Print) -> io::Result<()> {
    let mut census = [Counts([0; 256]); 9];
    for (paths, seed) in [(1, 10), (2, 20), (3, 30), (64, 640)] {
        for k in 1..7 {
            table(&mut census, paths, seed + k);
        }
    }
    for ((words, _), counts) in ROWS.iter().zip(census) {
        println!(rt; "{words}:times{counts}")?;
    }
    Ok(())
}
