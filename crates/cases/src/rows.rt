// One path's slots: a digit is so many packets of its own, x one of another path, m one of each.
use crate::tally::Tally;
use std::io;

// A name, the path's kind, its slots and the text.
const ROWS: [(&str, u8, &[u8], &str); 31] = [
    ("P5 E 0,0", 0, b"00", "end 3\n"),
    ("P6 E 0,0,0, still open", 0, b"000", "end 4\n"),
    ("P7 E 0,0,0,1, neither", 0, b"0001", "end 6\n"),
    ("P8 E 0,0,0,1,1", 0, b"00011", "0 B 1 3\nend 8\n"),
    ("P9 E 1,1,2", 0, b"112", "end 8\n"),
    ("P10 E 1,2,2, still open", 0, b"122", "end 9\n"),
    (
        "P10 and then 1,1: E3 is 5 and 4",
        0,
        b"12211",
        "0 B 1 3\nend 13\n",
    ),
    ("E3 is 2", 0, b"0002", "0 B 1 2\nend 7\n"),
    ("E3 is 4", 0, b"0004", "0 B 1 2\nend 9\n"),
    ("LOCV, then Excess", 0, b"0005111", "0 B 1 5\nend 16\n"),
    (
        "two breaks",
        0,
        b"000111100011",
        "0 B 1 3\n0 B 8 10\nend 19\n",
    ),
    ("P11", 0, b"1110000000000011", "0 B 4 14\nend 22\n"),
    ("P12, still open", 0, b"1110000000000001", "end 21\n"),
    (
        "P12 and then E 1",
        0,
        b"111000000000000111111111",
        "0 U 4 15\nend 37\n",
    ),
    (
        "E10 is 8, still open",
        0,
        b"0000000000000011111111",
        "end 31\n",
    ),
    (
        "E10 is 9",
        0,
        b"00000000000000111111111",
        "0 U 1 14\nend 33\n",
    ),
    (
        "E10 is 11",
        0,
        b"000000000000004004003",
        "0 U 1 12\nend 33\n",
    ),
    (
        "E10 is 12, then 10",
        0,
        b"0000000000000040040040011",
        "0 U 1 16\nend 40\n",
    ),
    (
        "U10 is 1, then 0",
        0,
        b"00000000000000x1111111111",
        "0 U 1 16\nend 37\n",
    ),
    (
        "B, then U",
        0,
        b"00011100000000000000000111111111",
        "0 B 1 3\n0 U 7 23\nend 45\n",
    ),
    (
        "U, then B",
        0,
        b"1110000000000000000011111111100011",
        "0 U 4 20\n0 B 30 32\nend 49\n",
    ),
    (
        "a break when unavailable is no B",
        0,
        b"0000000000000011111000111111111",
        "0 U 1 22\nend 46\n",
    ),
    ("Mismatch, then Mismerge", 0, b"xxx111", "0 B 1 4\nend 13\n"),
    ("Mismerge", 0, b"111m111", "0 B 2 5\nend 16\n"),
    ("Mismerge, still open", 0, b"111m11", "end 14\n"),
    ("LOCV, Mismatch, LOCV", 0, b"000x00011", "0 B 1 7\nend 13\n"),
    ("Mismatch in two slots is none", 0, b"xx", "end 5\n"),
    (
        "Mismatch for 11 closes",
        0,
        b"xxxxxxxxxxxxx1111111111",
        "0 U 1 14\nend 47\n",
    ),
    ("FFD, a break", 3, b"00011", "end 8\n"),
    (
        "FFD, an outage",
        1,
        b"11100000000000000000111111111",
        "end 42\n",
    ),
    ("FFD, Mismerge and Excess", 6, b"111m1119111", "end 32\n"),
];

pub(crate) fn cases<R: Print>(t: &mut Tally<R>) -> io::Result<()> {
    for (name, kind, row, text) in ROWS {
        t.kind_row(name, kind, row, text)?;
    }
    Ok(())
}
