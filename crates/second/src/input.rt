// Standard input, octet by octet. It is read in pieces, and a field may lie across the ends of several.
use std::io;
use std::io::{ErrorKind, Read, Stdin};
use std::ops::Range;

const PIECE: usize = 65536;

// The piece that was read last and which of its octets are left, how many octets of the whole input are used, and the
// error of a read that failed.
#[derive(Drop)]
pub(crate) struct Source {
    stdin: Stdin,
    piece: [u8; PIECE],
    left: Range<usize>,
    offset: u64,
    error: Option<io::Error>,
}

impl Source {
    pub(crate) fn new(stdin: Stdin) -> Source {
        Source {
            stdin,
            piece: [0; PIECE],
            left: 0..0,
            offset: 0,
            error: None,
        }
    }

    pub(crate) fn offset(&self) -> u64 {
        self.offset
    }

    // A read that a signal interrupts is tried again.
    fn read(&mut self) -> io::Result<usize> {
        for _ in 0..u64::MAX {
            match self.stdin.read(&mut self.piece) {
                Err(error) if error.kind() == ErrorKind::Interrupted => {}
                answer => return answer,
            }
        }
        self.stdin.read(&mut self.piece)
    }

    // A fresh piece. One whose read failed has no octets, and the error is kept.
    fn refill(&mut self) {
        match self.read() {
            Ok(have) => self.left = 0..have,
            Err(error) => self.error = Some(error),
        }
    }

    // None at the end. No input is so long that the offset stops.
    pub(crate) fn next(&mut self) -> Option<u8> {
        if self.left.is_empty() {
            self.refill();
        }
        let at = self.left.next()?;
        self.offset = self.offset.saturating_add(1);
        self.piece.get(at).copied()
    }

    // The next octets, as many as `content` has, put into it; none where the input ends before.
    pub(crate) fn fill(&mut self, content: &mut [u8]) -> Option<()> {
        for place in content.iter_mut() {
            *place = self.next()?;
        }
        Some(())
    }

    // An error where a read failed.
    pub(crate) fn result(self) -> io::Result<()> {
        self.error.map_or(Ok(()), Err)
    }
}
