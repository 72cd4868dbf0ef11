// P5 to P12 of the paper, the flood of 256, and the path of its program: the records on the way, and what stands at the end.
use crate::paths;
use crate::shown::{Shown, defect};
use lsp::Lsp;
use std::io;
use window::Record;

// The words, the path's kind, and so many slots of so many CVs each.
const CLAIMS: [(&str, u8, &[(u32, u32)]); 11] = [
    ("P5 E 0 0", 0, &[(2, 0)]),
    ("P6 E 0 0 0", 0, &[(3, 0)]),
    ("P7 E 0 0 0 1", 0, &[(3, 0), (1, 1)]),
    ("P8 E 0 0 0 1 1", 0, &[(3, 0), (2, 1)]),
    ("P9 E 1 1 2", 0, &[(2, 1), (1, 2)]),
    ("P10 E 1 2 2", 0, &[(1, 1), (2, 2)]),
    ("E 0 0 256", 0, &[(2, 0), (1, 256)]),
    (
        "P11 E 1 in slots 1 to 3 and 15 to 16, else 0, after slot 16",
        0,
        &[(3, 1), (11, 0), (2, 1)],
    ),
    (
        "P12 E 1 in slots 1 to 3 and 16, else 0, after slot 16",
        0,
        &[(3, 1), (12, 0), (1, 1)],
    ),
    (
        "the program's path, E 1 in slots 1 to 3, 0 in 4 to 20, 1 in 21 to 29",
        0,
        &[(3, 1), (17, 0), (9, 1)],
    ),
    ("FFD path of rate 3, E 0 in slots 1 to 20", 3, &[(20, 0)]),
];

// A record that a close hands out, on the way to what stands at the end.
fn record(rt: &impl Print, r: Option<Record>) -> io::Result<()> {
    match r {
        None => Ok(()),
        Some(Record::U { from, until }) => print!(rt; " U {from} {until}, then"),
        Some(Record::B { from, until }) => print!(rt; " B {from} {until}, then"),
    }
}

// A slot of k CVs, closed.
fn slot(rt: &impl Print, path: Lsp, k: u32) -> io::Result<Lsp> {
    let fed = paths::fed(path, &paths::cv(true), k);
    let Ok((c, next)) = fed.close() else {
        return Ok(fed);
    };
    record(rt, c.handed)?;
    Ok(next)
}

pub(crate) fn claims(rt: &impl Print) -> io::Result<()> {
    for (words, kind, slots) in CLAIMS {
        print!(rt; "{words}:")?;
        let mut path = paths::path(kind);
        for (many, k) in slots {
            for _ in 0..*many {
                path = slot(rt, path, *k)?;
            }
        }
        let defect = defect(path.state.defect);
        let availability = Shown(path.state.availability);
        println!(rt; " {defect}, {availability}")?;
    }
    Ok(())
}
