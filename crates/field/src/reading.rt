// The path that octets read as.
ghost use Rattle.std.specs.Prelude.{◌≡◌, ◌+◌, ◌≤◌};
ghost use Rattle.octets.specs.Parts.{part};
ghost use Rattle.field.specs.Field.{defect_of, availability_of, fdi_in, path_in, path_of};

use lsp::{Fdi, Lsp};
use payload::DefectType;
use window::{Availability, Defect, State};

// The N octets from place `at` on.
pub(crate) fn part<const N: usize>(s: &[u8; 79], at: usize) -> [u8; N]
    requires { at + N ≤ 79 }
    ensures { result ≡ part s.now at N }
{
    let mut octets = [0; N];
    octets.copy_from_slice(&s[at..at + N]);
    octets
}

pub(crate) fn defect_of(code: u16) -> Defect
    ensures { result ≡ defect_of code }
{
    match DefectType::try_from(code) {
        Ok(DefectType::Locv) => Defect::Locv,
        Ok(DefectType::Mismatch) => Defect::Mismatch,
        Ok(DefectType::Mismerge) => Defect::Mismerge,
        Ok(DefectType::Excess) => Defect::Excess,
        _ => Defect::Clear,
    }
}

pub(crate) fn availability_of(unavailable: u8, since: u64) -> Availability
    ensures { result ≡ availability_of unavailable since }
{
    match unavailable {
        0 => Availability::Available,
        _ => Availability::Unavailable { since },
    }
}

pub(crate) fn fdi_in(s: &[u8; 79]) -> Fdi
    ensures { result ≡ fdi_in s.now }
{
    Fdi {
        left: u16::from_be_bytes(part(s, 71)),
        dt: u16::from_be_bytes(part(s, 73)),
        dl: u32::from_be_bytes(part(s, 75)),
    }
}

fn path_in(s: &[u8; 79]) -> Lsp
    ensures { result ≡ path_in s.now }
{
    Lsp {
        kind: s[3],
        ttsi: part(s, 4),
        dl: u32::from_be_bytes(part(s, 24)),
        state: State {
            closed: u64::from_be_bytes(part(s, 28)),
            e: part(s, 36),
            u: part(s, 47),
            defect: defect_of(u16::from_be_bytes(part(s, 58))),
            stood: s[60],
            availability: availability_of(s[61], u64::from_be_bytes(part(s, 62))),
        },
        server: s[70] == 1,
        fdi: fdi_in(s),
    }
}

// 79 octets as they stand, field or not; of more or fewer, a new path of kind 0 with zeros for its TTSI and DL.
pub fn path_of(s: &[u8]) -> Lsp
    ensures { result ≡ path_of s.now }
{
    match s.as_array() {
        Some(field) => path_in(field),
        None => Lsp::new(0, [0; 20], 0),
    }
}
