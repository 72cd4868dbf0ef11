// Packets of one slot after another, drawn from a seed: phases of 1 to 40 slots, each of one style.

// The number drawn last, the style of the phase and how many of its slots are left.
#[derive(Drop)]
pub(crate) struct Source {
    x: u64,
    style: u64,
    left: u64,
}

// The next number drawn, by Lehmer's rule: from 1 to 2147483646.
// Each program has its own: in a crate of theirs each call would need a promise and two wrong answers, and be longer for it.
fn next(x: u64) -> u64 {
    x % 2147483647 * 48271 % 2147483647
}

// One, and in one slot of eight 0 to 300.
fn flood(x: u64) -> u64 {
    if x % 8 == 0 { x / 8 % 301 } else { 1 }
}

// One; in some slots none, or two.
fn late(x: u64) -> u64 {
    match x {
        0 => 0,
        1 => 2,
        _ => 1,
    }
}

// One to three, and in one slot of sixteen 256.
fn foreign(x: u64) -> u64 {
    if x % 16 == 0 { 256 } else { 1 + x % 3 }
}

// None, and at the end 256.
fn burst(left: u64) -> u64 {
    if left == 1 { 256 } else { 0 }
}

// Packets with the expected TTSI in a slot. A style is a number, as it is drawn: an enum would add a table from numbers and say no more.
fn expected(style: u64, x: u64, left: u64) -> u64 {
    match style {
        // Silence, and other paths' packets alone.
        4 | 5 | 8 => 0,
        // Two a slot.
        6 => 2,
        // Floods.
        7 => flood(x),
        // Anything, with other paths' packets.
        9 => x % 3,
        // Single losses.
        10 => u64::from(x % 8 != 0),
        // One in three slots, which is neither entry nor exit.
        11 => u64::from(left % 3 == 0),
        // Two in three slots, or so.
        13 => u64::from(x % 3 != 0),
        // Late ones.
        14 => late(x % 16),
        // Silence that ends with 256.
        15 => burst(left),
        // One a slot.
        _ => 1,
    }
}

// Packets with another TTSI.
fn other(style: u64, x: u64) -> u64 {
    match style {
        8 => foreign(x),
        9 => u64::from(x % 7 == 0),
        12 => u64::from(x % 5 == 0),
        _ => 0,
    }
}

fn small(x: u64) -> u16 {
    if x < 1000 { x as u16 } else { 1000 }
}

impl Source {
    pub(crate) fn new(seed: u64) -> Source {
        Source {
            x: seed,
            style: 0,
            left: 0,
        }
    }

    fn draw(&mut self) -> u64 {
        self.x = next(self.x);
        self.x
    }

    // The packets of the next slot, with the expected TTSI and with others. Where the phase is over, a new one comes first.
    pub(crate) fn slot(&mut self) -> (u16, u16) {
        if self.left == 0 {
            self.style = self.draw() % 16;
            self.left = 1 + self.draw() % 40;
        }
        let x = self.draw();
        let e = expected(self.style, x, self.left);
        let u = other(self.style, x);
        self.left = self.left.saturating_sub(1);
        (small(e), small(u))
    }
}
