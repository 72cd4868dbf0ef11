// The paper's numbers that no proof has.
use crate::build::Events;
use crate::packets;
use crate::packets::T;
use crate::tally::Tally;
use lsp::Lsp;
use std::io;
use window::Defect;

// 43 octets, read and as an event.
fn short<R: Print>(t: &mut Tally<R>) -> io::Result<()> {
    let p = packets::own(0, 0);
    let p = packets::cut(&p);
    let number = refusal::number(payload::read(p));
    t.number("43 octets, read", u64::from(number), 2)?;
    let mut s = Events::new();
    s.path(0, 0)?;
    s.packet(0, p)?;
    t.built("43 octets, an event", &s, "r 2 2\nend 2\n")
}

fn closed(l: Lsp) -> Lsp {
    l.close().map_or(l, |(_, next)| next)
}

// A path with two slots closed and so many packets in the third.
fn flooded(k: u16) -> Lsp {
    let p = packets::own(0, 0);
    let mut l = closed(closed(Lsp::new(0, T, 0)));
    for _ in 0..k {
        l = l.receive(&p).map_or(l, |(_, next)| next);
    }
    l
}

fn excess<R: Print>(t: &mut Tally<R>) -> io::Result<()> {
    let is_excess = flooded(256)
        .close()
        .is_ok_and(|(closed, _)| closed.defect == Defect::Excess);
    t.number("E 0,0,256, the close is Excess", u64::from(is_excess), 1)
}

// The same as events. It stands, with no record, until slots 4, 5 and 6 have E 1: B 1 4, where a flood read as silence would give B 1 3.
fn flood<R: Print>(t: &mut Tally<R>) -> io::Result<()> {
    let mut s = Events::new();
    s.path(0, 0)?;
    s.slots(0, 0, b"00")?;
    s.packets(0, &packets::own(0, 0), 256)?;
    s.slots(0, 0, b"0111")?;
    t.built(
        "E 0,0,256,1,1,1, one record when Excess ends",
        &s,
        "0 B 1 4\nend 266\n",
    )
}

pub(crate) fn cases<R: Print>(t: &mut Tally<R>) -> io::Result<()> {
    short(t)?;
    excess(t)?;
    flood(t)?;
    t.row(
        "the program of 42 events",
        b"11100000000000000000111111111",
        "0 U 4 20\nend 42\n",
    )?;
    t.stream("empty input", b"", "end 0\n")
}
