// Numbers drawn from a seed, and what a path and a slot have by them.
use payload::DefectType;

// The number drawn last.
#[derive(Clone, Copy)]
pub(crate) struct Source(u64);

impl Source {
    // From the third number on: the first two of neighbouring seeds are alike.
    pub(crate) fn new(seed: u64) -> Source {
        let mut source = Source(seed);
        source.draw();
        source.draw();
        source
    }

    // The next number, by Lehmer's rule: from 1 to 2147483646.
    // Each program has its own: in a crate of theirs each call would need a promise and two wrong answers, and be longer for it.
    pub(crate) fn draw(&mut self) -> u64 {
        self.0 = self.0 % 2147483647 * 48271 % 2147483647;
        self.0
    }
}

// CV for four of ten.
pub(crate) fn kind(x: u64) -> u8 {
    let k = x % 10;
    if k <= 6 { k as u8 } else { 0 }
}

// How many slots a path has closed: below 3, below 10, up to 12, more.
pub(crate) fn slots(x: u64) -> u64 {
    let y = x / 4;
    match x % 4 {
        0 => y % 3,
        1 => 3 + y % 7,
        2 => 10 + y % 3,
        _ => 13 + y % 40,
    }
}

// A style that changes in one slot of eight. It is a number, as it is drawn: an enum would add a table from numbers and say no more.
pub(crate) fn style(before: u64, x: u64) -> u64 {
    if x % 8 == 0 { x / 8 % 7 } else { before }
}

// Packets of the path's own in a slot.
pub(crate) fn expected(style: u64, y: u64) -> u64 {
    match style {
        // Silence, and other paths' packets alone.
        0 | 4 => 0,
        // Two a slot.
        2 => 2,
        // Anything.
        5 => y % 4,
        // Floods.
        6 => y % 40,
        // One a slot.
        _ => 1,
    }
}

// Packets of another TTSI.
pub(crate) fn others(style: u64, y: u64) -> u64 {
    match style {
        3 => 1,
        4 => 1 + y % 3,
        5 => u64::from(y % 9 == 0),
        _ => 0,
    }
}

pub(crate) fn defect_type(y: u64) -> DefectType {
    match y % 7 {
        0 => DefectType::Server,
        1 => DefectType::PeerMe,
        2 => DefectType::Locv,
        3 => DefectType::Mismatch,
        4 => DefectType::Mismerge,
        5 => DefectType::Excess,
        _ => DefectType::Unknown,
    }
}
