// A table made by public calls, all drawn from a seed.
use crate::packets::{Payload, Ttsi};
use crate::source::Source;
use crate::{packets, source};
use payload::FunctionType;
use table::Table;

// A path by its number, its packets, and the style of its slots.
#[derive(Clone, Copy)]
struct Path {
    lsp: u64,
    ttsi: Ttsi,
    kind: u8,
    style: u64,
}

// The table on its way, and the numbers that it is drawn from.
#[derive(Drop)]
struct Walk {
    table: Table,
    source: Source,
}

// A TTSI for each path, with an octet that is drawn.
fn ttsi(lsp: u64, x: u64) -> Ttsi {
    let mut t = packets::tunnel((7 + lsp % 200) as u8);
    t[3] = (x % 256) as u8;
    t
}

fn word(x: u64) -> u32 {
    (x % 4294967296) as u32
}

// The rate of another path's packets: CV, or FFD.
fn rate(y: u64) -> u8 {
    if y % 2 == 0 { 0 } else { (1 + y % 6) as u8 }
}

impl Path {
    // The TTSI of no path.
    fn other(self) -> Ttsi {
        let mut o = self.ttsi;
        o[0] = 1;
        o
    }
}

impl Walk {
    // The same payload to a path k times.
    fn feed(&mut self, path: Path, p: &Payload, k: u64) {
        self.table = packets::fed(self.table, path.lsp, p, k);
    }

    fn tell(&mut self, path: Path, ty: FunctionType, z: u64) {
        let dt = source::defect_type(z / 8) as u16;
        let p = packets::told(ty, &path.other(), dt, word(z));
        self.feed(path, &p, 1);
    }

    // An FDI, a BDI, the server signal, or none of these.
    fn signal(&mut self, path: Path, z: u64) {
        match z % 8 {
            0 => self.tell(path, FunctionType::Fdi, z),
            1 => self.tell(path, FunctionType::Bdi, z),
            2 => self.table = packets::server(self.table, path.lsp, (z / 8 % 2) as u8),
            _ => {}
        }
    }

    // What comes in a slot; the path with the slot's style.
    fn slot(&mut self, path: Path) -> Path {
        let x = self.source.draw();
        let y = self.source.draw();
        let z = self.source.draw();
        let mut p = path;
        p.style = source::style(path.style, x);
        let own = packets::packet(&p.ttsi, p.kind);
        let other = packets::packet(&p.other(), rate(y));
        self.feed(p, &own, source::expected(p.style, y));
        self.feed(p, &other, source::others(p.style, y));
        self.signal(p, z);
        p
    }

    // So many slots closed, and one open.
    fn slots(&mut self, path: Path, many: u64) {
        let mut p = path;
        for _ in 0..many {
            p = self.slot(p);
            self.table = packets::closed(self.table, p.lsp);
        }
        self.slot(p);
    }

    // One path more.
    fn path(&mut self, lsp: u64) {
        let a = self.source.draw();
        let b = self.source.draw();
        let c = self.source.draw();
        let path = Path {
            lsp,
            ttsi: ttsi(lsp, a),
            kind: source::kind(a),
            style: b % 7,
        };
        self.table = packets::added(self.table, path.kind, &path.ttsi, word(b));
        self.slots(path, source::slots(c));
    }
}

// So many paths.
pub(crate) fn table(n: u64, seed: u64) -> Table {
    let mut w = Walk {
        table: Table::empty(),
        source: Source::new(seed),
    };
    for lsp in 0..n {
        w.path(lsp);
    }
    w.table
}
