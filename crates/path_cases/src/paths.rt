// A path of the paper's T, the payloads that come to it, and many steps at once.
use lsp::Lsp;
use payload::{DefectType, FunctionType, LENGTH};

pub(crate) type Payload = [u8; LENGTH];

// Each program has its own: in a crate of theirs each call would need a promise and two wrong answers, and be longer for it.
const T: [u8; 20] = *b"\0\0\0\0\0\0\0\0\0\0\xff\xff\xc0\x00\x02\x01\0\0\0\x07";

// Tunnel 8 in place of 7.
const OTHER: [u8; 20] = *b"\0\0\0\0\0\0\0\0\0\0\xff\xff\xc0\x00\x02\x01\0\0\0\x08";

// The local defect location.
const DL: u32 = 0x0000_FDE8;

pub(crate) fn path(kind: u8) -> Lsp {
    Lsp::new(kind, T, DL)
}

// A payload with the path's own TTSI or another. An FDI and a BDI have DT 0102.
pub(crate) fn packet(ty: FunctionType, own: bool, rate: u8, dl: u32) -> Payload {
    let ttsi = if own { &T } else { &OTHER };
    let mut p = [0; LENGTH];
    payload::write(ty as u8, ttsi, rate, DefectType::PeerMe as u16, dl, &mut p).ok();
    p
}

pub(crate) fn cv(own: bool) -> Payload {
    packet(FunctionType::Cv, own, 0, 0)
}

fn received(path: Lsp, p: &Payload) -> Lsp {
    path.receive(p).map_or(path, |(_, next)| next)
}

// The same payload k times.
pub(crate) fn fed(path: Lsp, p: &Payload, k: u32) -> Lsp {
    (0..k).fold(path, |now, _| received(now, p))
}

// An FDI with the DL.
pub(crate) fn told(path: Lsp, dl: u32) -> Lsp {
    received(path, &packet(FunctionType::Fdi, false, 0, dl))
}

// So many FDIs, whose DL is 1, 2 and so on.
pub(crate) fn all_told(path: Lsp, fdis: u32) -> Lsp {
    (0..fdis).fold(path, |now, k| told(now, k + 1))
}

pub(crate) fn closed(path: Lsp) -> Lsp {
    path.close().map_or(path, |(_, next)| next)
}

// k slots closed with no packet more.
pub(crate) fn silent(path: Lsp, k: u32) -> Lsp {
    (0..k).fold(path, |now, _| closed(now))
}

pub(crate) fn server(path: Lsp, value: u8) -> Lsp {
    path.server(value).unwrap_or(path)
}
