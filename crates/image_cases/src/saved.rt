// Each drawn table saved, restored and saved again, each time into more octets of aa than are needed; saved into one octet less; its
// image cut at every length, and with one octet more.
use crate::compare::{FILL, checksum, first, left, rest};
use crate::drawn;
use refusal::Refusal;
use std::io;
use table::Table;

pub(crate) const SIZE: usize = 5100;

pub(crate) type Buffer = [u8; SIZE];

// Restored from the first n octets, and saved again.
fn again(rt: &impl Print, b: &Buffer, n: usize) -> io::Result<()> {
    let mut c = [FILL; SIZE];
    let (restore, t) = match image::restore(first(b, n)) {
        Ok(t) => (0, t),
        Err(refusal) => (u8::from(refusal), Table::empty()),
    };
    let save = refusal::number(image::save(t, &mut c));
    let after = left(rest(&c, n));
    let same = u8::from(first(b, n) == first(&c, n));
    print!(rt; ", restore {restore}, save again {save}, aa after it {after}, the same {same}")
}

// Saved into an octet less than it needs.
fn short(rt: &impl Print, t: Table, n: usize) -> io::Result<()> {
    let mut b = [FILL; SIZE];
    let less = n.saturating_sub(1).min(SIZE);
    let save = refusal::number(image::save(t, &mut b[..less]));
    let after = left(first(&b, less));
    print!(rt; ", into an octet less {save}, aa left {after}")
}

// Of the shorter lengths, how many are refused 10.
fn cuts(b: &Buffer, n: usize) -> usize {
    (0..n)
        .filter(|k| image::restore(first(b, *k)) == Err(Refusal::Broken))
        .count()
}

fn claim(rt: &impl Print, paths: u64, seed: u64) -> io::Result<()> {
    let mut b = [FILL; SIZE];
    let t = drawn::table(paths, seed);
    let n = image::length(t);
    let save = refusal::number(image::save(t, &mut b));
    let after = left(rest(&b, n));
    let (a, c) = checksum(first(&b, n));
    print!(rt;
        "paths {paths}, seed {seed}: length {n}, save {save}, aa after it {after}, checksum {a} {c}"
    )?;
    again(rt, &b, n)?;
    short(rt, t, n)?;
    let refused = cuts(&b, n);
    let more = first(&b, n.saturating_add(1));
    let restore = refusal::number(image::restore(more));
    let begins = u8::from(image::begins(more));
    println!(rt; ", shorter cuts refused {refused}, an octet more {restore}, begins {begins}")
}

pub(crate) fn claims(rt: &impl Print) -> io::Result<()> {
    claim(rt, 0, 1)?;
    for (paths, seed) in [(1, 10), (2, 20), (3, 30), (64, 640)] {
        for k in 1..7 {
            claim(rt, paths, seed + k)?;
        }
    }
    Ok(())
}
