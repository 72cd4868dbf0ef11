// Events as octets, one behind another.
use crate::packets;
use crate::packets::{Payload, Ttsi};
use arrayvec::ArrayVec;
use std::io;
use std::io::Write;

// Room for 64 paths, or for one slot with 256 packets.
const ROOM: usize = 16384;

#[derive(Drop)]
pub(crate) struct Events {
    octets: ArrayVec<u8, ROOM>,
}

// How many packets of its own a slot has, by its letter: a digit says it, m is one.
fn owns(letter: u8) -> u16 {
    match letter {
        b'0'..=b'9' => u16::from(letter - b'0'),
        b'm' => 1,
        _ => 0,
    }
}

// And of another path: m and x are one.
fn others(letter: u8) -> u16 {
    u16::from(letter == b'm' || letter == b'x')
}

impl Events {
    pub(crate) fn new() -> Events {
        Events {
            octets: ArrayVec::new(),
        }
    }

    pub(crate) fn as_slice(&self) -> &[u8] {
        self.octets.as_slice()
    }

    // The first n octets, or as many as there are.
    pub(crate) fn first(&self, n: usize) -> &[u8] {
        let all = self.octets.as_slice();
        &all[..n.min(all.len())]
    }

    // Octets that need be no event.
    pub(crate) fn raw(&mut self, octets: &[u8]) -> io::Result<()> {
        self.octets.write_all(octets)
    }

    // n octets 00.
    pub(crate) fn zeros(&mut self, n: usize) -> io::Result<()> {
        for _ in 0..n {
            self.raw(&[0])?;
        }
        Ok(())
    }

    // Tag and length.
    fn head(&mut self, tag: u8, n: u16) -> io::Result<()> {
        self.raw(&[tag])?;
        self.raw(&n.to_be_bytes())
    }

    // An add with any kind and TTSI.
    pub(crate) fn add(&mut self, kind: u8, t: &Ttsi) -> io::Result<()> {
        self.head(0x11, 25)?;
        self.raw(&[kind])?;
        self.raw(t)?;
        self.raw(b"\0\0\xfd\xe8")
    }

    // The n-th path.
    pub(crate) fn path(&mut self, kind: u8, n: u8) -> io::Result<()> {
        self.add(kind, &packets::ttsi(n))
    }

    pub(crate) fn packet(&mut self, lsp: u8, p: &[u8]) -> io::Result<()> {
        self.head(0x12, (1 + p.len() % 65535) as u16)?;
        self.raw(&[lsp])?;
        self.raw(p)
    }

    pub(crate) fn close(&mut self, lsp: u8) -> io::Result<()> {
        self.head(0x13, 1)?;
        self.raw(&[lsp])
    }

    pub(crate) fn server(&mut self, lsp: u8, value: u8) -> io::Result<()> {
        self.head(0x14, 2)?;
        self.raw(&[lsp, value])
    }

    // The same packet k times.
    pub(crate) fn packets(&mut self, lsp: u8, p: &Payload, k: u16) -> io::Result<()> {
        for _ in 0..k {
            self.packet(lsp, p)?;
        }
        Ok(())
    }

    // A slot's packets and its close.
    pub(crate) fn slot(&mut self, lsp: u8, kind: u8, letter: u8) -> io::Result<()> {
        self.packets(lsp, &packets::own(lsp, kind), owns(letter))?;
        self.packets(lsp, &packets::own(200, kind), others(letter))?;
        self.close(lsp)
    }

    // Slots, one a letter.
    pub(crate) fn slots(&mut self, lsp: u8, kind: u8, row: &[u8]) -> io::Result<()> {
        for letter in row {
            self.slot(lsp, kind, *letter)?;
        }
        Ok(())
    }
}
