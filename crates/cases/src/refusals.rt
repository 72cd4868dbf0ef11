// Refused events, each with its index and its number.
use crate::build::Events;
use crate::packets;
use crate::packets::{T, changed, cut, damaged};
use crate::tally::Tally;
use std::io;

const UNKNOWN: [(&str, &[u8], &str); 4] = [
    ("1: a close, no path", b"\x13\0\x01\0", "r 1 1\nend 1\n"),
    ("1: a close, LSP 255", b"\x13\0\x01\xff", "r 1 1\nend 1\n"),
    (
        "1: server signals",
        b"\x14\0\x02\0\x01\x14\0\x02\xff\0",
        "r 1 1\nr 2 1\nend 2\n",
    ),
    (
        "1 before 2: an empty payload",
        b"\x12\0\x01\0",
        "r 1 1\nend 1\n",
    ),
];

// A path, and an add with a kind, T with an octet 16, and the text.
const SECOND: [(&str, u8, u8, &str); 4] = [
    ("8: TTSI expected already", 3, 0, "r 2 8\nend 2\n"),
    ("12: tunnel number", 0, 1, "r 2 12\nend 2\n"),
    ("12 before 8: kind 7", 7, 0, "r 2 12\nend 2\n"),
    ("12: kind 255", 255, 0, "r 2 12\nend 2\n"),
];

// A path of a kind, and a payload for it.
fn sent<R: Print>(t: &mut Tally<R>, name: &str, kind: u8, p: &[u8], text: &str) -> io::Result<()> {
    let mut s = Events::new();
    s.path(kind, 0)?;
    s.packet(0, p)?;
    t.built(name, &s, text)
}

fn lengths<R: Print>(t: &mut Tally<R>) -> io::Result<()> {
    let cv = packets::own(0, 0);
    let mut long = [0; 45];
    long[..44].copy_from_slice(&cv);
    sent(t, "2: 45 octets", 0, &long, "r 2 2\nend 2\n")?;
    sent(
        t,
        "2 before 3: 43 octets, damaged",
        0,
        cut(&damaged(cv)),
        "r 2 2\nend 2\n",
    )
}

fn octets<R: Print>(t: &mut Tally<R>) -> io::Result<()> {
    let cv = packets::own(0, 0);
    sent(t, "3: BIP16", 0, &damaged(cv), "r 2 3\nend 2\n")?;
    sent(
        t,
        "3 before 4: type 04",
        0,
        &damaged(changed(cv, 0, 4)),
        "r 2 3\nend 2\n",
    )
}

fn types<R: Print>(t: &mut Tally<R>) -> io::Result<()> {
    let cv = packets::own(0, 0);
    let padded = changed(changed(cv, 41, 1), 0, 8);
    sent(t, "4: type 04", 0, &changed(cv, 0, 4), "r 2 4\nend 2\n")?;
    sent(t, "4: type 00", 0, &changed(cv, 0, 0), "r 2 4\nend 2\n")?;
    sent(
        t,
        "4 before 5: type 08, padding",
        0,
        &padded,
        "r 2 4\nend 2\n",
    )
}

fn rules<R: Print>(t: &mut Tally<R>) -> io::Result<()> {
    let cv = packets::own(0, 0);
    sent(
        t,
        "5: a reserved octet",
        0,
        &changed(cv, 1, 1),
        "r 2 5\nend 2\n",
    )?;
    sent(t, "5: padding", 0, &changed(cv, 41, 1), "r 2 5\nend 2\n")?;
    sent(
        t,
        "5: tunnel number",
        0,
        &changed(cv, 20, 1),
        "r 2 5\nend 2\n",
    )
}

fn rates<R: Print>(t: &mut Tally<R>) -> io::Result<()> {
    let ffd = packets::own(0, 3);
    sent(
        t,
        "5: rate 0, expected TTSI",
        0,
        &changed(ffd, 24, 0),
        "r 2 5\nend 2\n",
    )?;
    sent(
        t,
        "5 before 6: rate 7, expected TTSI",
        0,
        &changed(ffd, 24, 7),
        "r 2 5\nend 2\n",
    )
}

fn defects<R: Print>(t: &mut Tally<R>) -> io::Result<()> {
    let fdi = packets::fdi(&T);
    let low = changed(fdi, 2, 0);
    let high = changed(fdi, 2, 255);
    sent(t, "5: DT 0002", 0, &low, "r 2 5\nend 2\n")?;
    sent(t, "5: DT 0000", 0, &changed(low, 3, 0), "r 2 5\nend 2\n")?;
    sent(t, "5: DT ffff", 0, &changed(high, 3, 255), "r 2 5\nend 2\n")
}

fn kinds<R: Print>(t: &mut Tally<R>) -> io::Result<()> {
    let cv = packets::own(0, 0);
    let ffd = packets::own(0, 3);
    sent(t, "6: FFD, a CV path", 0, &ffd, "r 2 6\nend 2\n")?;
    sent(t, "6: CV, an FFD path", 3, &cv, "r 2 6\nend 2\n")?;
    sent(
        t,
        "6: FFD of rate 3, a path of rate 4",
        4,
        &ffd,
        "r 2 6\nend 2\n",
    )
}

fn taken<R: Print>(t: &mut Tally<R>) -> io::Result<()> {
    sent(
        t,
        "not 6: FDI with the expected TTSI",
        0,
        &packets::fdi(&T),
        "end 2\n",
    )?;
    sent(
        t,
        "not 6: FFD of another TTSI",
        0,
        &packets::own(1, 3),
        "end 2\n",
    )
}

fn adds<R: Print>(t: &mut Tally<R>) -> io::Result<()> {
    for (name, kind, tunnel, text) in SECOND {
        let mut o = T;
        o[16] = tunnel;
        let mut s = Events::new();
        s.path(0, 0)?;
        s.add(kind, &o)?;
        t.built(name, &s, text)?;
    }
    Ok(())
}

// Refused packets are not counted: slot 3 has a damaged CV and an FFD.
fn uncounted<R: Print>(t: &mut Tally<R>) -> io::Result<()> {
    let mut s = Events::new();
    s.path(0, 0)?;
    s.slots(0, 0, b"00")?;
    s.packet(0, &damaged(packets::own(0, 0)))?;
    s.packet(0, &packets::own(0, 3))?;
    s.slots(0, 0, b"011")?;
    t.built(
        "refused packets are not counted",
        &s,
        "r 4 3\nr 5 6\n0 B 1 3\nend 10\n",
    )
}

// Refused adds take no number.
fn unnumbered<R: Print>(t: &mut Tally<R>) -> io::Result<()> {
    let mut s = Events::new();
    s.path(0, 0)?;
    s.path(0, 0)?;
    s.path(9, 1)?;
    s.path(0, 1)?;
    s.slots(1, 0, b"00011")?;
    t.built(
        "refused adds take no number",
        &s,
        "r 2 8\nr 3 12\n1 B 1 3\nend 11\n",
    )
}

// A refused close closes no slot.
fn unclosed<R: Print>(t: &mut Tally<R>) -> io::Result<()> {
    let mut s = Events::new();
    s.path(0, 0)?;
    s.slots(0, 0, b"00")?;
    s.close(1)?;
    s.slots(0, 0, b"011")?;
    t.built(
        "a refused close closes no slot",
        &s,
        "r 4 1\n0 B 1 3\nend 9\n",
    )
}

pub(crate) fn cases<R: Print>(t: &mut Tally<R>) -> io::Result<()> {
    for (name, s, text) in UNKNOWN {
        t.stream(name, s, text)?;
    }
    lengths(t)?;
    octets(t)?;
    types(t)?;
    rules(t)?;
    rates(t)?;
    defects(t)?;
    kinds(t)?;
    taken(t)?;
    adds(t)?;
    uncounted(t)?;
    unnumbered(t)?;
    unclosed(t)
}
