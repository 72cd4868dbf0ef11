// The payloads P1 to P4 of the paper.
use payload::{DefectType, Found, FunctionType, LENGTH};
use refusal::Refusal;

pub(crate) type Payload = [u8; LENGTH];

// Each program has its own: in a crate of theirs each call would need a promise and two wrong answers, and be longer for it.
pub(crate) const T: [u8; 20] = *b"\0\0\0\0\0\0\0\0\0\0\xff\xff\xc0\x00\x02\x01\0\0\0\x07";

// A type and the fields beside the TTSI, those that its row does not name zero. The type is a number: a sweep writes each of 256.
#[derive(Clone, Copy)]
pub(crate) struct Fields {
    pub ty: u8,
    pub rate: u8,
    pub dt: u16,
    pub dl: u32,
}

impl Fields {
    // With no field named.
    pub(crate) fn of_type(ty: u8) -> Fields {
        Fields {
            ty,
            rate: 0,
            dt: 0,
            dl: 0,
        }
    }

    pub(crate) fn ffd(rate: u8) -> Fields {
        Fields {
            ty: FunctionType::Ffd as u8,
            rate,
            dt: 0,
            dl: 0,
        }
    }

    // FDI or BDI.
    pub(crate) fn defect(ty: u8, dt: u16, dl: u32) -> Fields {
        Fields {
            ty,
            rate: 0,
            dt,
            dl,
        }
    }

    // Of what was read; all zero where it was refused.
    pub(crate) fn read(p: &Payload) -> Fields {
        match payload::read(p) {
            Ok(Found::Cv) => Fields::of_type(FunctionType::Cv as u8),
            Ok(Found::Ffd { rate }) => Fields::ffd(rate),
            Ok(Found::Fdi { dt, dl }) => Fields::defect(FunctionType::Fdi as u8, dt as u16, dl),
            Ok(Found::Bdi { dt, dl }) => Fields::defect(FunctionType::Bdi as u8, dt as u16, dl),
            Err(_) => Fields::of_type(0),
        }
    }

    // With all ones in the fields that the row does not name.
    pub(crate) fn crowded(self) -> Fields {
        let mut f = self;
        if f.ty != FunctionType::Ffd as u8 {
            f.rate = u8::MAX;
        }
        if f.ty == FunctionType::Cv as u8 || f.ty == FunctionType::Ffd as u8 {
            f.dt = u16::MAX;
            f.dl = u32::MAX;
        }
        f
    }

    pub(crate) fn write(self, ttsi: &[u8], buf: &mut [u8]) -> Result<(), Refusal> {
        payload::write(self.ty, ttsi, self.rate, self.dt, self.dl, buf)
    }
}

#[derive(Clone, Copy)]
pub(crate) struct Sample {
    pub name: &'static str,
    pub ttsi: [u8; 20],
    pub fields: Fields,
}

pub(crate) fn p1() -> Sample {
    Sample {
        name: "P1 CV",
        ttsi: T,
        fields: Fields::of_type(FunctionType::Cv as u8),
    }
}

pub(crate) fn samples() -> [Sample; 4] {
    let ffd = Fields::ffd(3);
    let fdi = Fields::defect(
        FunctionType::Fdi as u8,
        DefectType::Locv as u16,
        0x0000_FDE8,
    );
    let bdi = Fields::defect(
        FunctionType::Bdi as u8,
        DefectType::Locv as u16,
        0x0000_FDE8,
    );
    [
        p1(),
        Sample {
            name: "P2 FFD",
            ttsi: T,
            fields: ffd,
        },
        Sample {
            name: "P3 FDI",
            ttsi: [0; 20],
            fields: fdi,
        },
        Sample {
            name: "P4 BDI",
            ttsi: [0; 20],
            fields: bdi,
        },
    ]
}

impl Sample {
    // Written with its TTSI into the buffer.
    pub(crate) fn write(self, buf: &mut [u8]) -> Result<(), Refusal> {
        self.fields.write(&self.ttsi, buf)
    }

    // As the writer makes it.
    pub(crate) fn payload(self) -> Payload {
        let mut p = [0; LENGTH];
        self.write(&mut p).ok();
        p
    }
}
