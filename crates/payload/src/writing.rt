// From fields to the 44 octets of their row.
ghost use Rattle.std.specs.Prelude.{◌≡◌, ◌++◌, length, take};
ghost use Rattle.refusal.specs.Numbers.{number_in};
ghost use Rattle.payload.specs.Layout.{bip};
ghost use Rattle.payload.specs.Numbers.{head_in, tail_in};
ghost use Rattle.payload.specs.Writing.{write_of};

use crate::bip16::bip16;
use crate::found::{Found, row};
use crate::layout::{BIP, FunctionType, LENGTH, OWN, TTSI};
use refusal::Refusal;

// Offsets 0 to 3: the type, and the defect type where the row has one.
fn head(found: Found) -> [u8; TTSI]
    ensures { result ≡ head_in found }
{
    let (ty, dt) = match found {
        Found::Cv => (FunctionType::Cv, 0),
        Found::Ffd { rate: _ } => (FunctionType::Ffd, 0),
        Found::Fdi { dt, dl: _ } => (FunctionType::Fdi, dt as u16),
        Found::Bdi { dt, dl: _ } => (FunctionType::Bdi, dt as u16),
    };
    let [high, low] = dt.to_be_bytes();
    [ty as u8, 0, high, low]
}

// Offsets 24 to 41: the rate or the defect location, and zeros. Into the octets lent: by an array that is handed back a write takes half
// as long again.
fn tail(s: &mut [u8], found: Found)
    requires { length s.old ≡ 18 }
    ensures { s.new ≡ tail_in found }
{
    s.fill(0);
    match found {
        Found::Cv => {}
        Found::Ffd { rate } => s[0] = rate,
        Found::Fdi { dt: _, dl } | Found::Bdi { dt: _, dl } => s[..4].copy_from_slice(
            &dl.to_be_bytes(),
        ),
    }
}

// Offsets 42 and 43, from those before them.
fn seal(s: &mut [u8])
    requires { length s.old ≡ 44 }
    ensures { s.new ≡ take 42 s.old ++ bip (take 42 s.old) }
{
    let bip = bip16(&s[..BIP]);
    s[BIP..].copy_from_slice(&bip);
}

// The payload of the type's fields, into the first 44 octets lent: 12 where the type or a field of its row breaks its
// rule, or 11 where fewer are lent. A refusal writes nothing. Type, rate and defect type are any numbers, as `write_of` takes them.
pub fn write(ty: u8, ttsi: &[u8], rate: u8, dt: u16, dl: u32, buf: &mut [u8]) -> Result<(), Refusal>
    ensures { (number_in result, buf.new) ≡ write_of ty ttsi.now rate dt dl buf.old }
{
    let Ok(ty) = FunctionType::try_from(ty) else {
        return Err(Refusal::Value);
    };
    let Some(found) = row(ty, ttsi, rate, dt, dl) else {
        return Err(Refusal::Value);
    };
    if buf.len() < LENGTH {
        return Err(Refusal::Short);
    }
    buf[..TTSI].copy_from_slice(&head(found));
    buf[TTSI..OWN].copy_from_slice(ttsi);
    tail(&mut buf[OWN..BIP], found);
    seal(&mut buf[..LENGTH]);
    Ok(())
}
