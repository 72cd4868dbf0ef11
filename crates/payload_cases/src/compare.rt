// What a write leaves in 50 octets of aa.
use crate::samples::{Fields, Payload};
use payload::LENGTH;
use refusal::Refusal;

// What a buffer holds before a call writes into it.
pub(crate) const FILL: u8 = 0xAA;

// How many octets are the same at the same offset. No count here comes near 2^32, and the plain sum costs least.
pub(crate) fn alike(a: &[u8], b: &[u8]) -> u32 {
    let mut n = 0u32;
    for (x, y) in a.iter().zip(b) {
        n = n.wrapping_add(u32::from(*x == *y));
    }
    n
}

// How many octets are aa.
pub(crate) fn left(b: &[u8]) -> u32 {
    let mut n = 0u32;
    for octet in b {
        n = n.wrapping_add(u32::from(*octet == FILL));
    }
    n
}

// The answer, the octets that are those of a given payload, and those after the first 44 that are still aa.
#[derive(Clone, Copy, PartialEq, Eq)]
pub(crate) struct Outcome {
    pub answer: Result<(), Refusal>,
    pub alike: u32,
    pub left: u32,
}

impl Outcome {
    // Of a write that gives the payload.
    pub(crate) const WHOLE: Outcome = Outcome {
        answer: Ok(()),
        alike: 44,
        left: 6,
    };

    pub(crate) fn of(p: &Payload, fields: Fields, ttsi: &[u8]) -> Outcome {
        let mut b = [FILL; 50];
        let answer = fields.write(ttsi, &mut b);
        Outcome {
            answer,
            alike: alike(p, &b),
            left: left(&b[LENGTH..]),
        }
    }

    // Of what was read of the payload.
    pub(crate) fn again(p: &Payload) -> Outcome {
        Outcome::of(p, Fields::read(p), payload::ttsi(p))
    }
}
