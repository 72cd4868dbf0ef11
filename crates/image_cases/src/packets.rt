// Payloads, and many calls on a path of a table at once.
use payload::{FunctionType, LENGTH};
use table::Table;

pub(crate) type Payload = [u8; LENGTH];

pub(crate) type Ttsi = [u8; 20];

// Each program has its own: in a crate of theirs each call would need a promise and two wrong answers, and be longer for it.
const T: Ttsi = *b"\0\0\0\0\0\0\0\0\0\0\xff\xff\xc0\x00\x02\x01\0\0\0\x07";

// T with the last octet of its tunnel number.
pub(crate) fn tunnel(n: u8) -> Ttsi {
    let mut t = T;
    t[19] = n;
    t
}

// A payload of a type; zeros where the writer refuses the fields.
fn written(ty: FunctionType, ttsi: &Ttsi, rate: u8, dt: u16, dl: u32) -> Payload {
    let mut p = [0; LENGTH];
    payload::write(ty as u8, ttsi, rate, dt, dl, &mut p).ok();
    p
}

// FFD where there is a rate, else CV.
pub(crate) fn packet(t: &Ttsi, rate: u8) -> Payload {
    let ty = if rate == 0 {
        FunctionType::Cv
    } else {
        FunctionType::Ffd
    };
    written(ty, t, rate, 0, 0)
}

// An FDI or a BDI.
pub(crate) fn told(ty: FunctionType, t: &Ttsi, dt: u16, dl: u32) -> Payload {
    written(ty, t, 0, dt, dl)
}

// The same payload k times.
pub(crate) fn fed(t: Table, lsp: u64, p: &Payload, k: u64) -> Table {
    let mut now = t;
    for _ in 0..k {
        now = now.receive(lsp, p).map_or(now, |(_, next)| next);
    }
    now
}

pub(crate) fn closed(t: Table, lsp: u64) -> Table {
    t.close(lsp).map_or(t, |(_, next)| next)
}

// k slots closed with no packet more.
pub(crate) fn silent(t: Table, lsp: u64, k: u64) -> Table {
    let mut now = t;
    for _ in 0..k {
        now = closed(now, lsp);
    }
    now
}

pub(crate) fn server(t: Table, lsp: u64, value: u8) -> Table {
    t.server(lsp, value).unwrap_or(t)
}

pub(crate) fn added(t: Table, kind: u8, ttsi: &Ttsi, dl: u32) -> Table {
    t.add(kind, ttsi, dl).map_or(t, |(_, next)| next)
}
