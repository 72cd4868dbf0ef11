// How long an FDI stands: the closes after its arrival that answer with it, counted while LOCV stands.
use crate::paths;
use lsp::Lsp;
use payload::DefectType;
use std::io;

// How many of the next 400 closes answer with the FDI's defect type.
fn counted(path: Lsp) -> u32 {
    let mut now = path;
    let mut closes = 0u32;
    for _ in 0..400 {
        let Ok((c, next)) = now.close() else {
            return closes;
        };
        closes = closes.saturating_add(u32::from(c.out.dt == DefectType::PeerMe as u16));
        now = next;
    }
    closes
}

pub(crate) fn claims(rt: &impl Print) -> io::Result<()> {
    for kind in 0..7 {
        let path = paths::silent(paths::path(kind), 3);
        let closes = counted(paths::told(path, 1));
        println!(rt; "LOCV and an FDI, kind, closes that still answer with it: {kind} {closes}")?;
    }
    // A second FDI after two closes.
    let path = paths::silent(paths::path(0), 3);
    let later = paths::silent(paths::told(path, 1), 2);
    let closes = counted(paths::told(later, 1));
    println!(rt;
        "kind 0, LOCV, an FDI, two closes and a second FDI, closes after it that still answer with it: {closes}"
    )
}
