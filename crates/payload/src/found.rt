// The fields of a payload, its TTSI apart, by the type's row.
ghost use Rattle.std.specs.Prelude.{◌≡◌};
ghost use Rattle.payload.specs.Numbers.{row_in};

use crate::layout::{DefectType, FunctionType, is_ttsi};
use crate::rates::Rate;

// What a payload says.
#[derive(Clone, Copy, Debug, PartialEq, Eq)]
pub enum Found {
    Cv,
    Ffd { rate: u8 },
    Fdi { dt: DefectType, dl: u32 },
    Bdi { dt: DefectType, dl: u32 },
}

// The row of the type, if the TTSI and those fields that the row names obey their rules. The defect location has none.
pub(crate) fn row(ty: FunctionType, t: &[u8], rate: u8, dt: u16, dl: u32) -> Option<Found>
    ensures { result ≡ row_in ty t.now rate dt dl }
{
    if !is_ttsi(t) {
        return None;
    }
    let found = match ty {
        FunctionType::Cv => Found::Cv,
        FunctionType::Ffd => {
            if !Rate::is_rate(rate) {
                return None;
            }
            Found::Ffd { rate }
        }
        FunctionType::Fdi => Found::Fdi {
            dt: DefectType::try_from(dt).ok()?,
            dl,
        },
        FunctionType::Bdi => Found::Bdi {
            dt: DefectType::try_from(dt).ok()?,
            dl,
        },
    };
    Some(found)
}
