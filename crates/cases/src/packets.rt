// TTSIs and payloads.
use payload::{FunctionType, LENGTH};

pub(crate) type Payload = [u8; LENGTH];

pub(crate) type Ttsi = [u8; 20];

// Each program has its own: in a crate of theirs each call would need a promise and two wrong answers, and be longer for it.
pub(crate) const T: Ttsi = *b"\0\0\0\0\0\0\0\0\0\0\xff\xff\xc0\x00\x02\x01\0\0\0\x07";

// The n-th path's, from T on.
pub(crate) fn ttsi(n: u8) -> Ttsi {
    let mut t = T;
    t[19] = t[19].wrapping_add(n);
    t
}

// A payload of a type; zeros where the writer refuses the fields.
fn written(ty: FunctionType, ttsi: &Ttsi, rate: u8, dt: u16, dl: u32) -> Payload {
    let mut p = [0; LENGTH];
    payload::write(ty as u8, ttsi, rate, dt, dl, &mut p).ok();
    p
}

// FFD where there is a rate, else CV.
pub(crate) fn packet(t: &Ttsi, rate: u8) -> Payload {
    let ty = if rate == 0 {
        FunctionType::Cv
    } else {
        FunctionType::Ffd
    };
    written(ty, t, rate, 0, 0)
}

// That of the n-th path; no path here has 200.
pub(crate) fn own(n: u8, rate: u8) -> Payload {
    packet(&ttsi(n), rate)
}

pub(crate) fn fdi(t: &Ttsi) -> Payload {
    written(FunctionType::Fdi, t, 0, 0x0102, 0x0102_0304)
}

pub(crate) fn bdi(t: &Ttsi) -> Payload {
    written(FunctionType::Bdi, t, 0, 0x0102, 0x0102_0304)
}

// With an octet changed, and its BIP16 as well: the octet of BIP16 at its side of the words.
pub(crate) fn changed(mut p: Payload, at: usize, octet: u8) -> Payload {
    let i = at % 42;
    p[42 + i % 2] ^= p[i] ^ octet;
    p[i] = octet;
    p
}

// With the last octet changed: BIP16 is wrong.
pub(crate) fn damaged(mut p: Payload) -> Payload {
    p[43] ^= 1;
    p
}

// Without the last octet.
// A function of its own, for beside the runtime's type the search for its proof reaches its limit.
pub(crate) fn cut(p: &Payload) -> &[u8] {
    &p[..LENGTH - 1]
}
