// Several paths, long rows, and events that change no record.
use crate::build::Events;
use crate::packets;
use crate::packets::{Payload, T};
use crate::tally::Tally;
use std::io;

// The slots of a path by the program of 42 events.
const OUTAGE: &[u8] = b"11100000000000000000111111111";

// Records in the order of their closes.
fn order<R: Print>(t: &mut Tally<R>) -> io::Result<()> {
    let mut s = Events::new();
    s.path(0, 0)?;
    s.path(0, 1)?;
    s.slots(0, 0, b"0001")?;
    s.slots(1, 0, b"00011")?;
    s.slots(0, 0, b"1")?;
    t.built("LSP 1 closes first", &s, "1 B 1 3\n0 B 1 3\nend 16\n")
}

// Two paths slot by slot, the second of a kind.
fn pair<R: Print>(t: &mut Tally<R>, name: &str, kind: u8, text: &str) -> io::Result<()> {
    let mut s = Events::new();
    s.path(0, 0)?;
    s.path(kind, 1)?;
    for (a, b) in OUTAGE.iter().zip(b"00011111110000011111111111111") {
        s.slot(0, 0, *a)?;
        s.slot(1, kind, *b)?;
    }
    t.built(name, &s, text)
}

// 64 paths, of kinds 0 to 6 in turn.
fn fill(s: &mut Events) -> io::Result<()> {
    for n in 0..64 {
        s.path(n % 7, n)?;
    }
    Ok(())
}

// 64 paths, and an add with the n-th path's TTSI.
fn over<R: Print>(t: &mut Tally<R>, name: &str, kind: u8, n: u8, text: &str) -> io::Result<()> {
    let mut s = Events::new();
    fill(&mut s)?;
    s.path(kind, n)?;
    t.built(name, &s, text)
}

fn limits<R: Print>(t: &mut Tally<R>) -> io::Result<()> {
    let mut s = Events::new();
    fill(&mut s)?;
    s.slots(63, 0, b"00011")?;
    t.built("the 64th add: LSP 63", &s, "63 B 1 3\nend 71\n")?;
    let mut s = Events::new();
    fill(&mut s)?;
    s.close(64)?;
    t.built("64 paths, a close of LSP 64", &s, "r 65 1\nend 65\n")?;
    over(t, "7: the 65th add", 0, 64, "r 65 7\nend 65\n")?;
    over(t, "8 before 7: LSP 63's TTSI", 0, 63, "r 65 8\nend 65\n")?;
    over(t, "12 before 7: kind 7", 7, 64, "r 65 12\nend 65\n")
}

// So many pairs of slots of one packet.
fn quiet(s: &mut Events, k: u8) -> io::Result<()> {
    for _ in 0..k {
        s.slots(0, 0, b"11")?;
    }
    Ok(())
}

// Slots of three digits, and indices of two and three.
fn digits<R: Print>(t: &mut Tally<R>) -> io::Result<()> {
    let mut s = Events::new();
    s.path(0, 0)?;
    quiet(&mut s, 2)?;
    s.close(9)?;
    quiet(&mut s, 23)?;
    s.close(9)?;
    quiet(&mut s, 25)?;
    s.slots(0, 0, b"00011")?;
    t.built(
        "indices 10 and 103, slots 101 and 103",
        &s,
        "r 10 1\nr 103 1\n0 B 101 103\nend 210\n",
    )
}

// P8 with FDIs, BDIs and server signals in its slots.
fn signals<R: Print>(t: &mut Tally<R>) -> io::Result<()> {
    let fdi = packets::fdi(&T);
    let mut s = Events::new();
    s.path(0, 0)?;
    s.packet(0, &fdi)?;
    s.packet(0, &packets::bdi(&packets::ttsi(1)))?;
    s.server(0, 1)?;
    s.slots(0, 0, b"00")?;
    s.packets(0, &fdi, 2)?;
    s.slots(0, 0, b"01")?;
    s.server(0, 0)?;
    s.packet(0, &packets::bdi(&T))?;
    s.slots(0, 0, b"1")?;
    t.built("FDI, BDI and server signals", &s, "0 B 1 3\nend 15\n")
}

// A packet in slot 3 that is another path's: Mismatch.
fn foreign<R: Print>(t: &mut Tally<R>, name: &str, p: &Payload) -> io::Result<()> {
    let mut s = Events::new();
    s.path(0, 0)?;
    s.slots(0, 0, b"00")?;
    s.packet(0, p)?;
    s.slots(0, 0, b"0111")?;
    t.built(name, &s, "0 B 1 4\nend 11\n")
}

pub(crate) fn cases<R: Print>(t: &mut Tally<R>) -> io::Result<()> {
    order(t)?;
    pair(
        t,
        "two CV paths slot by slot",
        0,
        "1 B 1 3\n1 B 11 15\n0 U 4 20\nend 93\n",
    )?;
    pair(
        t,
        "a CV and an FFD path slot by slot",
        2,
        "0 U 4 20\nend 93\n",
    )?;
    limits(t)?;
    digits(t)?;
    signals(t)?;
    foreign(t, "FFD of another TTSI on a CV path", &packets::own(1, 5))?;
    foreign(t, "CV of TTSI zero", &packets::packet(&[0; 20], 0))
}
