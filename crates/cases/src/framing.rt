// Fields that are no event.
use crate::build::Events;
use crate::packets;
use crate::tally::Tally;
use std::io;

const TAGS: [(&str, &[u8]); 6] = [
    ("tag 10", b"\x10\0\x01\0"),
    ("tag 15", b"\x15\0\x01\0"),
    ("tag 00", b"\0\0\x01\0"),
    ("tag ff", b"\xff\0\x01\0"),
    ("tag 01, the image's first", b"\x01\0\x02\x01\0"),
    ("another tag and no more", b"\x10"),
];

// A head, and so many octets 00 of content.
const LENGTHS: [(&str, &[u8], usize); 10] = [
    ("an add of 24 octets", b"\x11\0\x18", 24),
    ("an add of 26 octets", b"\x11\0\x1a", 26),
    ("a packet of 0 octets", b"\x12\0\0", 0),
    ("a packet of 1025 octets", b"\x12\x04\x01", 1025),
    ("a packet of 65535 octets, cut", b"\x12\xff\xff", 8000),
    ("a close of 0 octets", b"\x13\0\0", 0),
    ("a close of 2 octets", b"\x13\0\x02", 2),
    ("a close of 257 octets", b"\x13\x01\x01", 257),
    ("a server signal of 1 octet", b"\x14\0\x01", 1),
    ("a server signal of 3 octets", b"\x14\0\x03", 3),
];

const SIGNALS: [(&str, &[u8]); 2] = [
    ("server octet 2, no path", b"\x14\0\x02\0\x02"),
    ("server octet 255, LSP 255", b"\x14\0\x02\xff\xff"),
];

// A path with a record, 8 events of 144 octets, and then other octets.
const AFTER: [(&str, &[u8], &str); 9] = [
    ("server octet 2", b"\x14\0\x02\0\x02", "0 B 1 3\nbad 144\n"),
    (
        "server octet 255",
        b"\x14\0\x02\0\xff",
        "0 B 1 3\nbad 144\n",
    ),
    (
        "server octets 1 and 0",
        b"\x14\0\x02\0\x01\x14\0\x02\0\0",
        "0 B 1 3\nend 10\n",
    ),
    (
        "another tag after a record",
        b"\x15\0\x01\0",
        "0 B 1 3\nbad 144\n",
    ),
    ("a cut field after a record", b"\x13", "0 B 1 3\nbad 144\n"),
    (
        "a wrong length after a close",
        b"\x13\0\x01\0\x13\0\0",
        "0 B 1 3\nbad 148\n",
    ),
    (
        "another tag after a refusal",
        b"\x13\0\x01\x05\x10",
        "0 B 1 3\nr 9 1\nbad 148\n",
    ),
    (
        "nothing after a bad field",
        b"\x13\0\x01\0\x14\0\x02\0\x02\x13\0\x01\x05",
        "0 B 1 3\nbad 148\n",
    ),
    (
        "a packet of 1 octet",
        b"\x12\0\x01\0",
        "0 B 1 3\nr 9 2\nend 9\n",
    ),
];

fn bad<R: Print>(t: &mut Tally<R>, name: &str, s: &[u8]) -> io::Result<()> {
    t.stream(name, s, "bad 0\n")
}

// An event cut after so many octets.
fn cut<R: Print, F: FnOnce(&mut Events) -> io::Result<()>>(
    t: &mut Tally<R>,
    name: &str,
    n: usize,
    event: F,
) -> io::Result<()>
    requires { F.IsAlwaysCallable event }
{
    let mut s = Events::new();
    event(&mut s)?;
    bad(t, name, s.first(n))
}

fn cuts<R: Print>(t: &mut Tally<R>) -> io::Result<()> {
    let p = packets::own(0, 0);
    cut(t, "a close cut after 1 octet", 1, |s| s.close(0))?;
    cut(t, "a close cut after 2 octets", 2, |s| s.close(0))?;
    cut(t, "a close cut after 3 octets", 3, |s| s.close(0))?;
    cut(t, "an add cut after 3 octets", 3, |s| s.path(0, 0))?;
    cut(t, "an add cut before its last octet", 27, |s| s.path(0, 0))?;
    cut(t, "a packet cut behind its LSP", 4, |s| s.packet(0, &p))?;
    cut(
        t,
        "a packet cut before its last octet",
        47,
        |s| s.packet(0, &p),
    )?;
    cut(
        t,
        "a server signal cut behind its LSP",
        4,
        |s| s.server(0, 1),
    )
}

fn lengths<R: Print>(t: &mut Tally<R>) -> io::Result<()> {
    for (name, head, n) in LENGTHS {
        let mut s = Events::new();
        s.raw(head)?;
        s.zeros(n)?;
        bad(t, name, s.as_slice())?;
    }
    Ok(())
}

fn after<R: Print>(t: &mut Tally<R>) -> io::Result<()> {
    for (name, octets, text) in AFTER {
        let mut s = Events::new();
        s.path(0, 0)?;
        s.slots(0, 0, b"00011")?;
        s.raw(octets)?;
        t.built(name, &s, text)?;
    }
    Ok(())
}

pub(crate) fn cases<R: Print>(t: &mut Tally<R>) -> io::Result<()> {
    for (name, s) in TAGS {
        bad(t, name, s)?;
    }
    cuts(t)?;
    lengths(t)?;
    for (name, s) in SIGNALS {
        bad(t, name, s)?;
    }
    after(t)?;
    let mut s = Events::new();
    s.path(0, 0)?;
    s.packet(0, &[0; 1023])?;
    t.built("a packet of 1024 octets", &s, "r 2 2\nend 2\n")
}
