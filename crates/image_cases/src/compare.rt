// Parts of octets, and what is reckoned of them.

// What a buffer holds before a call writes into it.
pub(crate) const FILL: u8 = 0xAA;

// How many octets are aa.
pub(crate) fn left(s: &[u8]) -> usize {
    s.iter().filter(|octet| **octet == FILL).count()
}

// The first n octets, or as many as there are.
// Each program has its own: in a crate of theirs each call would need a promise and two wrong answers, and be longer for it.
pub(crate) fn first(s: &[u8], n: usize) -> &[u8] {
    &s[..n.min(s.len())]
}

// Those after the first n.
pub(crate) fn rest(s: &[u8], n: usize) -> &[u8] {
    &s[n.min(s.len())..]
}

// The two running sums of a checksum.
pub(crate) fn checksum(s: &[u8]) -> (u32, u32) {
    s.iter().fold((1, 0), |(a, b), octet| {
        let a = (a % 65521 + u32::from(*octet)) % 65521;
        (a, (b % 65521 + a) % 65521)
    })
}
