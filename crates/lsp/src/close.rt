// The close of a slot on a path, and what goes out.
ghost use Rattle.std.specs.Prelude.{◌≡◌};
ghost use Rattle.lsp.specs.Steps.{faded_of, locv_out_of, out_of, close_of};
ghost use Rattle.lsp.specs.Outcomes.{closed_in};

use crate::path::{Fdi, Lsp};
use payload::{DefectType, Kind};
use refusal::Refusal;
use window::{Defect, Record};

// What goes out of a path: the defect type and location of its FDI and BDI, zero where no defect stands, and what its
// alarm and its traffic do. The type is a number, since `out_of` hands on what a record holds as its FDI's.
#[derive(Clone, Copy, Debug, PartialEq, Eq, Default)]
pub struct Out {
    pub dt: u16,
    pub dl: u32,
    pub alarm: bool,
    pub suppression: bool,
}

// What a close answers.
#[derive(Clone, Copy, Debug, PartialEq, Eq)]
pub struct Closed {
    pub defect: Defect,
    pub out: Out,
    pub handed: Option<Record>,
}

impl Fdi {
    // One close less.
    fn faded(self) -> Fdi
        ensures { result ≡ faded_of self }
    {
        if self.left <= 1 {
            return Fdi::default();
        }
        Fdi {
            left: self.left - 1,
            ..self
        }
    }
}

impl Lsp {
    // While LOCV stands: the server's defect, else that of the FDI that stands, else the path's own, which alone is an alarm.
    fn locv_out(self) -> Out
        ensures { result ≡ locv_out_of self }
    {
        let (dt, dl, alarm) = if self.server {
            (DefectType::Server as u16, self.dl, false)
        } else if 1 <= self.fdi.left {
            (self.fdi.dt, self.fdi.dl, false)
        } else {
            (DefectType::Locv as u16, self.dl, true)
        };
        Out {
            dt,
            dl,
            alarm,
            suppression: false,
        }
    }

    // What goes out as the path stands.
    pub fn out(self) -> Out
        ensures { result ≡ out_of self }
    {
        let suppression = match self.state.defect {
            Defect::Clear => return Out::default(),
            Defect::Locv => return self.locv_out(),
            Defect::Mismatch | Defect::Mismerge => true,
            Defect::Excess => false,
        };
        Out {
            dt: self.state.defect.code(),
            dl: self.dl,
            alarm: true,
            suppression,
        }
    }

    #[tactic(auto, unfolding(crate::specs::Steps::close_of))]
    // The close of the open slot; 9 at the limit.
    pub fn close(self) -> Result<(Closed, Lsp), Refusal>
        ensures { closed_in self result ≡ close_of self }
    {
        let (state, handed) = self.state.close(self.kind == Kind::CV)?;
        let next = Lsp {
            state,
            fdi: self.fdi.faded(),
            ..self
        };
        let closed = Closed {
            defect: state.defect,
            out: next.out(),
            handed,
        };
        Ok((closed, next))
    }
}
