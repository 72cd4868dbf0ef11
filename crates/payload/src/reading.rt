// From 44 octets to the fields of their row.
ghost use Rattle.std.specs.Prelude.{◌≡◌, ◌≤◌, ◌==◌};
ghost use Rattle.std.specs.List.{list_all};
ghost use Rattle.payload.specs.Numbers.{type_of};
ghost use Rattle.payload.specs.Reading.{answer_of, bip_right, clear_from, blank_from, clear_in, read_of, ttsi_part, ttsi_place};

use crate::bip16::bip16;
pub use crate::found::Found;
use crate::found::row;
use crate::layout::{BIP, FunctionType, LENGTH, OWN, TTSI};
use refusal::Refusal;

type Payload = [u8; LENGTH];

fn is_bip_right(p: &Payload) -> bool
    ensures { result ≡ bip_right p.now }
{
    [p[BIP], p[BIP + 1]] == bip16(&p[..BIP])
}

fn are_zeros(s: &[u8]) -> bool
    ensures { result ≡ list_all (λ b. b == 0) s.now }
{
    s.iter().all(|&b| b == 0)
}

// Octet 1 is zero, and so are those from the offset to BIP16.
fn is_clear_from(p: &Payload, from: usize) -> bool
    requires { from ≤ 42 }
    ensures { result ≡ clear_from p.now from }
{
    p[1] == 0 && are_zeros(&p[from..BIP])
}

// There is no defect type either.
fn is_blank_from(p: &Payload, from: usize) -> bool
    requires { from ≤ 42 }
    ensures { result ≡ blank_from p.now from }
{
    p[2] == 0 && p[3] == 0 && is_clear_from(p, from)
}

// The octets that the type's row reserves or pads with are zero, whatever its fields are.
fn is_clear(p: &Payload, ty: FunctionType) -> bool
    ensures { result ≡ clear_in ty p.now }
{
    match ty {
        FunctionType::Cv => is_blank_from(p, OWN),
        FunctionType::Ffd => is_blank_from(p, OWN + 1),
        FunctionType::Fdi | FunctionType::Bdi => is_clear_from(p, OWN + 4),
    }
}

// The fields of a payload, or its refusal: 2, 3, 4, 5.
pub fn read(p: &[u8]) -> Result<Found, Refusal>
    ensures { answer_of result ≡ read_of p.now }
{
    let Some(p) = p.as_array::<LENGTH>() else {
        return Err(Refusal::Length);
    };
    if !is_bip_right(p) {
        return Err(Refusal::Bip16);
    }
    let Ok(ty) = FunctionType::try_from(p[0]) else {
        return Err(Refusal::Function);
    };
    if !is_clear(p, ty) {
        return Err(Refusal::Row);
    }
    let dt = u16::from_be_bytes([p[2], p[3]]);
    let dl = u32::from_be_bytes([p[OWN], p[OWN + 1], p[OWN + 2], p[OWN + 3]]);
    row(ty, &p[TTSI..OWN], p[OWN], dt, dl).ok_or(Refusal::Row)
}

// Where the TTSI of 44 octets lies, for a caller who has read them; none of any other number of octets. No TTSI is an empty slice,
// not a None: `ttsi_place` and `ttsi_part` say where it begins.
pub fn ttsi_place(p: &[u8]) -> &[u8]
    ensures { (result.ref_ptr, result.now) ≡ ttsi_place p.entry.ref_ptr p.now }
{
    if p.len() == LENGTH {
        &p[TTSI..OWN]
    } else {
        &p[..0]
    }
}

// The caller's own twenty octets, or none where the reader refuses.
pub fn ttsi(p: &[u8]) -> &[u8]
    ensures { (result.ref_ptr, result.now) ≡ ttsi_part p.entry.ref_ptr p.now }
{
    let answer = read(p);
    if answer.is_ok() {
        &p[TTSI..OWN]
    } else {
        &p[..0]
    }
}
