// The edges of a table, run: a line a claim, its words first, then numbers that can be reckoned by hand.
#![tactic(auto)]

mod made;
mod unheeded;

use lsp::Lsp;
use made::{filled, signalled, silent, ttsi};
use std::io;
use table::Table;
use unheeded::Unheeded;

// Answers of adding: the orders 12, 8, 7, on a table with as many paths as are given.
fn adding(rt: &impl Print, words: &str, t: Table) -> io::Result<()> {
    let known = ttsi(0);
    let fresh = refusal::number(t.add(0, &ttsi(200), 0));
    let again = refusal::number(t.add(0, &known, 0));
    let kind = refusal::number(t.add(7, &known, 0));
    let short = refusal::number(t.add(0, &[0; 19], 0));
    println!(rt; "{words}: {fresh} {again} {kind} {short}")
}

// Answers of the calls on a number.
fn calling(rt: &impl Print, words: &str, t: Table, lsp: u64) -> io::Result<()> {
    let mut buf = [0xAA; 44];
    let received = refusal::number(t.receive(lsp, b""));
    let closed = refusal::number(t.close(lsp));
    let signalled = refusal::number(t.server(lsp, 2));
    let fdi = refusal::number(t.write_fdi(lsp, &mut buf));
    let bdi = refusal::number(t.write_bdi(lsp, &mut buf));
    println!(rt; "{words}: {received} {closed} {signalled} {fdi} {bdi}")
}

fn writing(rt: &impl Print, t: Table) -> io::Result<()> {
    let down = silent(t, 5);
    let mut few = [0xAA; 43];
    let mut buf = [0xAA; 50];
    let short = refusal::number(down.write_fdi(5, &mut few));
    let fdi = refusal::number(down.write_fdi(5, &mut buf));
    let bdi = refusal::number(down.write_bdi(5, &mut buf));
    println!(rt;
        "path 5 after three silent closes, FDI into 43 octets, into 50, BDI into 50: {short} {fdi} {bdi}"
    )
}

// How many paths have their server signal on, and how many a closed slot.
fn marks(rt: &impl Print, words: &str, t: Table) -> io::Result<()> {
    let server = t.lsps.iter().filter(|l| l.server).count();
    let closed = t.lsps.iter().filter(|l| 0 < l.state.closed).count();
    println!(rt; "{words}: {server} {closed}")
}

fn adds(rt: &impl Print, one: Table, full: Table) -> io::Result<()> {
    adding(
        rt,
        "no path, a new TTSI, one that path 0 has elsewhere, kind 7 with it, 19 octets of it",
        Table::empty(),
    )?;
    adding(
        rt,
        "one path, a new TTSI, its own, kind 7 with its own, 19 octets of its own",
        one,
    )?;
    adding(
        rt,
        "64 paths, a new TTSI, path 0's, kind 7 with it, 19 octets of it",
        full,
    )
}

fn calls(rt: &impl Print, one: Table, full: Table) -> io::Result<()> {
    calling(
        rt,
        "no path, calls on 0: receive nothing, close, server 2, FDI, BDI",
        Table::empty(),
        0,
    )?;
    calling(rt, "one path, calls on 0", one, 0)?;
    calling(rt, "one path, calls on 1", one, 1)?;
    calling(rt, "64 paths, calls on 63", full, 63)?;
    calling(rt, "64 paths, calls on 64", full, 64)?;
    calling(
        rt,
        "64 paths, calls on 18446744073709551615",
        full,
        u64::MAX,
    )
}

// A count that no calls give.
fn many(rt: &impl Print) -> io::Result<()> {
    let many = Table {
        count: 900,
        lsps: [Lsp::new(0, [0; 20], 0); 64],
    };
    adding(
        rt,
        "a count of 900, a new TTSI, another, kind 7, 19 octets",
        many,
    )?;
    calling(rt, "a count of 900, calls on 63", many, 63)?;
    calling(rt, "a count of 900, calls on 64", many, 64)
}

fn claims(rt: &impl Print) -> io::Result<()> {
    let one = filled(1);
    let full = filled(64);
    let numbered = made::numbered(64);
    println!(rt; "paths added one by one, added with the number that is due: {numbered}")?;
    adds(rt, one, full)?;
    calls(rt, one, full)?;
    many(rt)?;
    marks(rt, "64 paths, signals on, paths with a closed slot", full)?;
    marks(rt, "after the signal of path 5", signalled(full, 5))?;
    marks(rt, "after three closes of path 5", silent(full, 5))?;
    writing(rt, full)
}

fn main(rt: HostRuntime) {
    claims(&Unheeded(&rt)).ok();
}
