// Damages made by hand, each with the number that restoring answers.
use crate::compare::first;
use crate::three::{Image, SIZE};
use crate::{drawn, three};
use std::io;

// A number put over the image: at which offset, in how many octets, and which.
type Damage = (usize, usize, u64);

// Offsets of the three fields.
const FIRST: usize = 5;

const SECOND: usize = 84;

const THIRD: usize = 163;

// Offsets of parts in a field.
const TTSI: usize = 4;

const CLOSED: usize = 28;

const E: usize = 36;

const U: usize = 47;

const CODE: usize = 58;

const STOOD: usize = 60;

const OUT: usize = 61;

const SINCE: usize = 62;

const SERVER: usize = 70;

const LEFT: usize = 71;

const DT: usize = 73;

const DL: usize = 75;

// The first path: unavailable since slot 4 of 17, and the limit of slots; available; its FDI, and its FDI gone.
const IN_FIRST: [(&str, &[Damage]); 18] = [
    ("unavailable, since closed-12", &[(FIRST + SINCE, 8, 5)]),
    ("unavailable, since closed-11", &[(FIRST + SINCE, 8, 6)]),
    ("unavailable, since 0", &[(FIRST + SINCE, 8, 0)]),
    (
        "closed 1,000,000,000,000",
        &[(FIRST + CLOSED, 8, 1000000000000)],
    ),
    (
        "closed 1,000,000,000,001",
        &[(FIRST + CLOSED, 8, 1000000000001)],
    ),
    (
        "available CV path, stood 10",
        &[
            (FIRST + OUT, 1, 0),
            (FIRST + SINCE, 8, 0),
            (FIRST + STOOD, 1, 10),
        ],
    ),
    (
        "available CV path, stood 11",
        &[
            (FIRST + OUT, 1, 0),
            (FIRST + SINCE, 8, 0),
            (FIRST + STOOD, 1, 11),
        ],
    ),
    ("code 0204", &[(FIRST + CODE, 2, 0x0204)]),
    ("code 0205", &[(FIRST + CODE, 2, 0x0205)]),
    ("code 0 with closes stood", &[(FIRST + CODE, 2, 0)]),
    ("closes left life+1", &[(FIRST + LEFT, 2, 4)]),
    ("closes left life+2", &[(FIRST + LEFT, 2, 5)]),
    ("FDI standing, DT 02ff", &[(FIRST + DT, 2, 0x02FF)]),
    ("FDI standing, DT 0000", &[(FIRST + DT, 2, 0)]),
    ("FDI standing, DT ffff", &[(FIRST + DT, 2, 0xFFFF)]),
    (
        "FDI gone, DT and DL zero",
        &[(FIRST + LEFT, 2, 0), (FIRST + DT, 2, 0), (FIRST + DL, 4, 0)],
    ),
    (
        "FDI gone, with its DL",
        &[
            (FIRST + LEFT, 2, 0),
            (FIRST + DT, 2, 0),
            (FIRST + DL, 4, 0x0102_0304),
        ],
    ),
    (
        "FDI gone, with its DT",
        &[
            (FIRST + LEFT, 2, 0),
            (FIRST + DT, 2, 0x0102),
            (FIRST + DL, 4, 0),
        ],
    ),
];

// The second path, of FFD. The third, which has closed two slots: the first of them at the ninth count.
const IN_OTHERS: [(&str, &[Damage]); 10] = [
    (
        "FFD path unavailable since 1",
        &[(SECOND + OUT, 1, 1), (SECOND + SINCE, 8, 1)],
    ),
    ("server 0", &[(SECOND + SERVER, 1, 0)]),
    ("server 2", &[(SECOND + SERVER, 1, 2)]),
    (
        "two closed, E 1 in slot 1",
        &[(THIRD + E, 8, 0), (THIRD + E + 8, 3, 0x01_0000)],
    ),
    (
        "two closed, E 1 in the slot before it",
        &[(THIRD + E, 8, 0), (THIRD + E + 7, 4, 0x0100_0000)],
    ),
    (
        "two closed, U 1 in the slot before it",
        &[(THIRD + U + 7, 4, 0x0100_0000)],
    ),
    (
        "two closed, LOCV stood 1",
        &[
            (THIRD + CLOSED, 8, 2),
            (THIRD + CODE, 2, 0x0201),
            (THIRD + STOOD, 1, 1),
        ],
    ),
    (
        "five closed, LOCV stood 3",
        &[
            (THIRD + CLOSED, 8, 5),
            (THIRD + CODE, 2, 0x0201),
            (THIRD + STOOD, 1, 3),
        ],
    ),
    (
        "five closed, LOCV stood 4",
        &[
            (THIRD + CLOSED, 8, 5),
            (THIRD + CODE, 2, 0x0201),
            (THIRD + STOOD, 1, 4),
        ],
    ),
    ("TTSI of another path", &[(THIRD + TTSI + 19, 1, 7)]),
];

fn claim(rt: &impl Print, words: &str, p: &[u8]) -> io::Result<()> {
    let number = refusal::number(image::restore(p));
    println!(rt; "{words}: {number}")
}

fn damaged(p: &Image, damages: &[Damage]) -> Image {
    let mut q = *p;
    for (at, many, x) in damages {
        if let Some(part) = q.get_mut(*at..at.saturating_add(*many)) {
            octets::put_number(part, *x);
        }
    }
    q
}

fn claim_damaged(rt: &impl Print, words: &str, damages: &[Damage]) -> io::Result<()> {
    claim(rt, words, &damaged(&three::saved(), damages))
}

// An octet more than the image has.
fn longer(rt: &impl Print) -> io::Result<()> {
    let mut more = [0; SIZE + 1];
    more[..SIZE].copy_from_slice(&three::saved());
    claim(rt, "an octet 00 more", &more)
}

// A table of 64 paths, and behind it the first field once more, with a TTSI of its own.
fn many(rt: &impl Print) -> io::Result<()> {
    let mut b = [0; 5140];
    image::save(drawn::table(64, 641), &mut b).ok();
    claim(rt, "64 paths", first(&b, 5061))?;
    b.copy_within(5..84, 5061);
    b[4] = 65;
    b[5061 + TTSI + 19] = 255;
    claim(rt, "65 paths, each with its field", &b)
}

pub(crate) fn claims(rt: &impl Print) -> io::Result<()> {
    claim_damaged(rt, "three paths as they were saved", &[])?;
    claim_damaged(rt, "version 02", &[(3, 1, 2)])?;
    longer(rt)?;
    claim_damaged(rt, "count octet 2", &[(4, 1, 2)])?;
    claim_damaged(rt, "count octet 65", &[(4, 1, 65)])?;
    many(rt)?;
    for (words, damages) in IN_FIRST {
        claim_damaged(rt, words, damages)?;
    }
    for (words, damages) in IN_OTHERS {
        claim_damaged(rt, words, damages)?;
    }
    Ok(())
}
