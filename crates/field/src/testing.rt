// Whether octets are a field.
ghost use Rattle.std.specs.Prelude.{◌≡◌};
ghost use Rattle.lsp.specs.Sound.{sound};
ghost use Rattle.field.specs.Field.{is_plain_code, is_plain_availability, path_in, is_field};

use crate::reading::{availability_of, defect_of, fdi_in, part};
use lsp::{availability_holds, code_holds, row_holds, stood_holds};
use payload::{Kind, is_ttsi};
use window::LIMIT;

// The server signal: 0, or on.
const ON: u8 = 1;

fn is_plain_code(code: u16) -> bool
    ensures { result ≡ is_plain_code code }
{
    defect_of(code).code() == code
}

fn is_plain_availability(unavailable: u8, since: u64) -> bool
    ensures { result ≡ is_plain_availability unavailable since }
{
    unavailable == 1 || unavailable == 0 && since == 0
}

// Whether the path that the octets read as obeys its rules, each tested where it lies.
fn rules_hold(s: &[u8; 79]) -> bool
    ensures { result ≡ sound (path_in s.now) }
{
    let kind = s[3];
    let closed = u64::from_be_bytes(part(s, 28));
    let code = u16::from_be_bytes(part(s, 58));
    let stood = s[60];
    let since = u64::from_be_bytes(part(s, 62));
    Kind::is_kind(kind)
        && is_ttsi(&s[4..24])
        && closed <= LIMIT
        && row_holds(12, closed, &s[36..47])
        && row_holds(1, closed, &s[47..58])
        && code_holds(defect_of(code), stood)
        && stood_holds(closed, stood)
        && availability_holds(kind, closed, stood, availability_of(s[61], since))
        && fdi_in(s).holds(kind)
}

// Whether restoring may accept the octets as a path's field. That its TTSI differs from the others' is for the image to see.
pub fn is_field(s: &[u8]) -> bool
    ensures { result ≡ is_field s.now }
{
    let Some(s) = s.as_array() else {
        return false;
    };
    let code = u16::from_be_bytes(part(s, 58));
    let since = u64::from_be_bytes(part(s, 62));
    // Octet by octet: an image is tested a tenth slower where two arrays are compared.
    s[0] == 2
        && s[1] == 0
        && s[2] == 76
        && is_plain_code(code)
        && is_plain_availability(s[61], since)
        && s[70] <= ON
        && rules_hold(s)
}
