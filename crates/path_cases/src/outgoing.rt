// What goes out at the close of slot 3, by what came in it.
use crate::{paths, shown};
use lsp::{Lsp, Out};
use std::{fmt, io};
use window::Defect;

// What came in slot 3 of a CV path that had no packet before it: CV packets of its own and of another TTSI, FDIs, and the server signal.
#[derive(Clone, Copy)]
pub(crate) struct Came {
    pub own: u32,
    pub other: u32,
    pub fdis: u32,
    pub server: u8,
}

impl Came {
    // The path, slot 3 open.
    pub(crate) fn path(self) -> Lsp {
        let start = paths::silent(paths::path(0), 2);
        let own = paths::fed(start, &paths::cv(true), self.own);
        let other = paths::fed(own, &paths::cv(false), self.other);
        paths::server(paths::all_told(other, self.fdis), self.server)
    }
}

impl fmt::Display for Came {
    fn fmt<W: fmt::Write>(&self, f: &mut fmt::Formatter<W>) -> fmt::Result {
        let Came {
            own,
            other,
            fdis,
            server,
        } = *self;
        write!(
            f,
            "slot 3 with CV, CV of another TTSI, FDI, server signal {own} {other} {fdis} {server}"
        )
    }
}

fn claim(rt: &impl Print, own: u32, other: u32, fdis: u32, server: u8) -> io::Result<()> {
    let came = Came {
        own,
        other,
        fdis,
        server,
    };
    let (defect, out) = match came.path().close() {
        Ok((c, _)) => (c.defect, c.out),
        Err(_) => (Defect::Clear, Out::default()),
    };
    let defect = shown::defect(defect);
    let Out {
        dt,
        dl,
        alarm,
        suppression,
    } = out;
    let alarm = u8::from(alarm);
    let suppression = u8::from(suppression);
    println!(rt;
        "{came}: {defect}, DT, DL, alarm, suppression: {dt:04x} {dl:08x} {alarm} {suppression}"
    )
}

// Without an FDI, with one, and with the server signal too.
fn claims_of(rt: &impl Print, own: u32, other: u32) -> io::Result<()> {
    claim(rt, own, other, 0, 0)?;
    claim(rt, own, other, 1, 0)?;
    claim(rt, own, other, 1, 1)
}

fn claim_server(rt: &impl Print, value: u8) -> io::Result<()> {
    let (number, path) = match paths::path(0).server(value) {
        Ok(path) => (0, path),
        Err(refusal) => (u8::from(refusal), paths::path(0)),
    };
    let on = u8::from(path.server);
    println!(rt; "server value, answer, signal on: {value} {number} {on}")
}

pub(crate) fn claims(rt: &impl Print) -> io::Result<()> {
    claims_of(rt, 0, 0)?;
    claim(rt, 0, 0, 0, 1)?;
    claim(rt, 0, 0, 2, 0)?;
    for (own, other) in [(0, 1), (1, 1), (5, 0), (3, 0)] {
        claims_of(rt, own, other)?;
    }
    for value in 0..3 {
        claim_server(rt, value)?;
    }
    Ok(())
}
