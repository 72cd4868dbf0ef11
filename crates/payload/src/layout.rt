// Where the fields stand, the numbers that they may be, and the rules of each.
ghost use Rattle.std.specs.Prelude.{◌≡◌};
ghost use Rattle.payload.specs.Layout.{is_defect, is_ttsi};
ghost use Rattle.payload.specs.Numbers.{type_in, defect_in};

pub const LENGTH: usize = 44;

// Offsets: the TTSI, what a row has of its own (rate or defect location), BIP16.
pub(crate) const TTSI: usize = 4;

pub(crate) const OWN: usize = 24;

pub(crate) const BIP: usize = 42;

// A number that names nothing.
#[derive(Clone, Copy, Debug, PartialEq, Eq)]
pub struct Unknown<N>(pub N);

#[derive(Clone, Copy, Debug, PartialEq, Eq)]
pub enum FunctionType {
    Cv = 0x01,
    Fdi = 0x02,
    Bdi = 0x03,
    Ffd = 0x07,
}

impl TryFrom<u8> for FunctionType {
    type Error = Unknown<u8>;

    ghost try_from_gives = { λ ty r. r ≡ type_in ty };

    fn try_from(ty: u8) -> Result<Self, Unknown<u8>> {
        match ty {
            0x01 => Ok(FunctionType::Cv),
            0x02 => Ok(FunctionType::Fdi),
            0x03 => Ok(FunctionType::Bdi),
            0x07 => Ok(FunctionType::Ffd),
            _ => Err(Unknown(ty)),
        }
    }
}

#[derive(Clone, Copy, Debug, PartialEq, Eq)]
pub enum DefectType {
    Server = 0x0101,
    PeerMe = 0x0102,
    Locv = 0x0201,
    Mismatch = 0x0202,
    Mismerge = 0x0203,
    Excess = 0x0204,
    Unknown = 0x02FF,
}

impl TryFrom<u16> for DefectType {
    type Error = Unknown<u16>;

    ghost try_from_gives = { λ dt r. r ≡ defect_in dt };

    fn try_from(dt: u16) -> Result<Self, Unknown<u16>> {
        match dt {
            0x0101 => Ok(DefectType::Server),
            0x0102 => Ok(DefectType::PeerMe),
            0x0201 => Ok(DefectType::Locv),
            0x0202 => Ok(DefectType::Mismatch),
            0x0203 => Ok(DefectType::Mismerge),
            0x0204 => Ok(DefectType::Excess),
            0x02FF => Ok(DefectType::Unknown),
            _ => Err(Unknown(dt)),
        }
    }
}

impl DefectType {
    // Whether the number is one of the seven.
    pub fn is_defect(dt: u16) -> bool
        ensures { result ≡ is_defect dt }
    {
        DefectType::try_from(dt).is_ok()
    }
}

// Whether the octets are a TTSI: 20 of them, the tunnel number's first two zero.
pub fn is_ttsi(t: &[u8]) -> bool
    ensures { result ≡ is_ttsi t.now }
{
    t.len() == 20 && t[16] == 0 && t[17] == 0
}
