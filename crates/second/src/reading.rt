// A payload, read by the paper's table of types.
use crate::refusal::Refusal;

const LENGTH: usize = 44;

// Offsets.
const DT: usize = 2;

const TTSI: usize = 4;

const RATE: usize = 24;

const DL_END: usize = 28;

const BIP16: usize = 42;

pub(crate) type Ttsi = [u8; 20];

// A path is checked by CV packets, or by FFD packets of one rate.
#[derive(Clone, Copy, PartialEq, Eq)]
pub(crate) enum Kind {
    Cv,
    Ffd { rate: u8 },
}

// A CV or FFD packet, the two that are counted.
#[derive(Drop)]
pub(crate) struct Counted<'a> {
    pub kind: Kind,
    pub ttsi: &'a Ttsi,
}

#[derive(Clone, Copy)]
enum Function {
    Cv,
    Fdi,
    Bdi,
    Ffd,
}

impl TryFrom<u8> for Function {
    type Error = Refusal;

    fn try_from(octet: u8) -> Result<Function, Refusal> {
        match octet {
            0x01 => Ok(Function::Cv),
            0x02 => Ok(Function::Fdi),
            0x03 => Ok(Function::Bdi),
            0x07 => Ok(Function::Ffd),
            _ => Err(Refusal::Function),
        }
    }
}

impl TryFrom<u8> for Kind {
    type Error = Refusal;

    fn try_from(code: u8) -> Result<Kind, Refusal> {
        match code {
            0 => Ok(Kind::Cv),
            rate if is_rate(rate) => Ok(Kind::Ffd { rate }),
            _ => Err(Refusal::Value),
        }
    }
}

// The exclusive-or of every second octet.
fn parity(s: &[u8]) -> u8 {
    s.iter().step_by(2).fold(0, |x, &octet| x ^ octet)
}

fn is_bip16_right(p: &[u8; LENGTH]) -> bool {
    p[BIP16..] == [parity(&p[..BIP16]), parity(&p[1..BIP16])]
}

fn is_zero(s: &[u8]) -> bool {
    s.iter().all(|&octet| octet == 0)
}

// Between the LSR and the tunnel of a TTSI two octets are zeros.
pub(crate) fn is_ttsi(ttsi: &Ttsi) -> bool {
    is_zero(&ttsi[16..18])
}

fn is_rate(code: u8) -> bool {
    (1..=6).contains(&code)
}

// The defect types that are not reserved.
fn is_dt(octets: [u8; 2]) -> bool {
    matches!(
        u16::from_be_bytes(octets),
        0x0101 | 0x0102 | 0x0201..=0x0204 | 0x02FF
    )
}

// The kind, if it is one that is counted, by what each type asks of octets 2 and 3 and of those from 24 on.
fn counted_kind(p: &[u8; LENGTH]) -> Result<Option<Kind>, Refusal> {
    match Function::try_from(p[0])? {
        Function::Cv if is_zero(&p[DT..TTSI]) && is_zero(&p[RATE..BIP16]) => Ok(Some(Kind::Cv)),
        Function::Ffd
            if is_zero(&p[DT..TTSI]) && is_rate(p[RATE]) && is_zero(&p[RATE + 1..BIP16]) => {
            Ok(Some(Kind::Ffd { rate: p[RATE] }))
        }
        Function::Fdi | Function::Bdi if is_dt([p[DT], p[DT + 1]]) && is_zero(&p[DL_END..BIP16]) =>
            Ok(None),
        _ => Err(Refusal::Row),
    }
}

// What is counted of a payload, if anything is; else the refusal, in the paper's order.
pub(crate) fn read(p: &[u8]) -> Result<Option<Counted<'_>>, Refusal> {
    let p = p.as_array::<LENGTH>().ok_or(Refusal::Length)?;
    if !is_bip16_right(p) {
        return Err(Refusal::Bip16);
    }
    let kind = counted_kind(p)?;
    let ttsi = p[TTSI..].first_chunk().unwrap();
    if p[1] != 0 || !is_ttsi(ttsi) {
        return Err(Refusal::Row);
    }
    Ok(kind.map(|kind| Counted { kind, ttsi }))
}
