// The paths that were added: what each one expects, what came, and how many slots of it are closed.
use crate::back::Record;
use crate::reading;
use crate::reading::{Kind, Ttsi};
use crate::refusal::{NotDone, Refusal};
use crate::slots::{ROW, Row};

pub(crate) const MOST: usize = 64;

// Packets with the expected TTSI that are of the path's own kind are counted in `expected`, those with another in
// `others`.
#[derive(Clone, Copy)]
pub(crate) struct Path {
    kind: Kind,
    ttsi: Ttsi,
    closed: usize,
    pub expected: Row,
    pub others: Row,
}

impl Path {
    fn new(kind: Kind, ttsi: Ttsi) -> Path {
        Path {
            kind,
            ttsi,
            closed: 0,
            expected: Row::ZERO,
            others: Row::ZERO,
        }
    }

    pub(crate) fn receive(&mut self, p: &[u8]) -> Result<(), NotDone> {
        let Some(counted) = reading::read(p)? else {
            return Ok(());
        };
        let one_more = if *counted.ttsi != self.ttsi {
            self.others.count(self.closed)
        } else if counted.kind == self.kind {
            self.expected.count(self.closed)
        } else {
            return Err(Refusal::OtherKind.into());
        };
        one_more.ok_or(NotDone::NoRoom)
    }

    // Only a CV path has records. The last slot of a row is never closed: it is kept for the packets that come after
    // the slots before it.
    pub(crate) fn close(&mut self) -> Result<Option<Record>, NotDone> {
        if self.closed >= ROW - 1 {
            return Err(NotDone::NoRoom);
        }
        self.closed += 1;
        if self.kind == Kind::Cv {
            Ok(self.ended_by(self.closed))
        } else {
            Ok(None)
        }
    }
}

// By their numbers, from 0 on. It is a bare array, lent from where `main` makes it: as a field it would be moved, and
// the usual stack has no room for two.
pub(crate) type Paths = [Option<Path>; MOST];

pub(crate) fn get(paths: &mut Paths, lsp: u8) -> Result<&mut Path, Refusal> {
    match paths.get_mut(usize::from(lsp)) {
        Some(Some(path)) => Ok(path),
        _ => Err(Refusal::NoPath),
    }
}

pub(crate) fn add(paths: &mut Paths, kind: u8, ttsi: &Ttsi) -> Result<(), Refusal> {
    let kind = Kind::try_from(kind)?;
    if !reading::is_ttsi(ttsi) {
        return Err(Refusal::Value);
    }
    if paths.iter().flatten().any(|path| path.ttsi == *ttsi) {
        return Err(Refusal::Taken);
    }
    let free = paths
        .iter()
        .position(|place| place.is_none())
        .ok_or(Refusal::Full)?;
    paths[free] = Some(Path::new(kind, *ttsi));
    Ok(())
}
