// A table of three paths and its image: a CV path unavailable in LOCV with an FDI standing, an FFD path in Mismerge with the server
// signal on, a young CV path.
use crate::compare::FILL;
use crate::packets;
use crate::packets::Payload;
use payload::{DefectType, FunctionType};
use table::Table;

pub(crate) const SIZE: usize = 242;

pub(crate) type Image = [u8; SIZE];

fn added() -> Table {
    let one = packets::added(Table::empty(), 0, &packets::tunnel(7), 0x0000_FDE8);
    let two = packets::added(one, 3, &packets::tunnel(8), 0xFFFF_FFFF);
    packets::added(two, 0, &packets::tunnel(9), 0)
}

// So many slots, each with one payload and k of another.
fn slots(t: Table, lsp: u64, p: &Payload, q: &Payload, k: u64, many: u64) -> Table {
    let mut now = t;
    for _ in 0..many {
        let own = packets::fed(now, lsp, p, 1);
        now = packets::closed(packets::fed(own, lsp, q, k), lsp);
    }
    now
}

// 3 slots with a CV, 14 without, an FDI in the last of them, and 15 in the open one.
fn first(t: Table) -> Table {
    let p = packets::packet(&packets::tunnel(7), 0);
    let q = packets::told(
        FunctionType::Fdi,
        &[0; 20],
        DefectType::PeerMe as u16,
        0x0102_0304,
    );
    let up = slots(t, 0, &p, &p, 0, 3);
    let told = packets::fed(packets::silent(up, 0, 13), 0, &q, 1);
    packets::fed(packets::closed(told, 0), 0, &p, 15)
}

// 14 slots with an FFD and a CV of another TTSI.
fn second(t: Table) -> Table {
    let p = packets::packet(&packets::tunnel(8), 3);
    let q = packets::packet(&packets::tunnel(99), 0);
    packets::server(slots(t, 1, &p, &q, 1, 14), 1, 1)
}

// 2 slots with a CV.
fn third(t: Table) -> Table {
    let p = packets::packet(&packets::tunnel(9), 0);
    slots(t, 2, &p, &p, 0, 2)
}

pub(crate) fn table() -> Table {
    third(second(first(added())))
}

pub(crate) fn saved() -> Image {
    let mut b = [FILL; SIZE];
    image::save(table(), &mut b).ok();
    b
}
