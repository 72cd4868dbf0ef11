// The records program: events on standard input, `LSP U from until` and the other lines on standard output, in memory that doesn't grow.
//
// What it prints is decided by the crate `events`; here are only the reads, the writes, and the octets that wait for the rest of their field.
#![tactic(auto)]

use events::{Reckoning, Rest};
use std::io;
use std::io::{ErrorKind, Read};

// Room for thousands of fields, and for the lines of some 8,000 events: where a read brings more, it takes another run.
const INPUT: usize = 131072;

const OUTPUT: usize = 524288;

// Where the program is, and how many octets it holds back at the front of its input, whose memory is lent and fixed.
#[derive(Clone, Copy)]
struct Held {
    reckoning: Reckoning,
    octets: usize,
}

// The last line, after which the program is over.
fn last(rt: &impl Print, r: Reckoning, whole: bool, out: &mut [u8]) -> io::Result<()> {
    let n = r.finish(whole, out);
    rt.write_all(out.get(..n).unwrap_or(&[]))
}

// The events that are whole in the octets, run by run, and how many octets wait for more; none where the input has gone bad.
fn taken(
    rt: &impl Print,
    reckoning: Reckoning,
    octets: &[u8],
    out: &mut [u8],
) -> io::Result<Option<Held>> {
    let mut reckoning = reckoning;
    let mut left = octets;
    for _ in 0..u64::MAX {
        let ran = reckoning.run(left, out);
        reckoning = ran.next;
        rt.write_all(out.get(..ran.text).unwrap_or(&[]))?;
        left = left.get(ran.taken..).unwrap_or(&[]);
        match ran.rest {
            None => {}
            Some(Rest::Cut) => {
                let octets = left.len();
                return Ok(Some(Held { reckoning, octets }));
            }
            Some(Rest::Bad) => {
                last(rt, reckoning, false, out)?;
                return Ok(None);
            }
        }
    }
    Ok(None)
}

// One read, and the events that it brings. At the end of the input, or where it can't be read, the last line; then the error of that read.
fn fed(
    rt: &impl Print,
    stdin: &mut impl Read,
    held: Held,
    buf: &mut [u8],
    out: &mut [u8],
) -> io::Result<Option<Held>> {
    let Held { reckoning, octets } = held;
    // Never: less than one field is held back, at most 1,026 octets.
    if buf.len() <= octets {
        return Ok(None);
    }
    match stdin.read(&mut buf[octets..]) {
        Ok(0) => {
            last(rt, reckoning, octets == 0, out)?;
            Ok(None)
        }
        Ok(got) => {
            let have = octets + got;
            let next = taken(rt, reckoning, &buf[..have], out)?;
            if let Some(held) = next {
                buf.copy_within(have.saturating_sub(held.octets)..have, 0);
            }
            Ok(next)
        }
        Err(error) if error.kind() == ErrorKind::Interrupted => Ok(Some(held)),
        Err(error) => {
            last(rt, reckoning, octets == 0, out)?;
            Err(error)
        }
    }
}

// Room for octets. A call's result has its length, and none of its octets need be reckoned to know it.
fn zeros<const N: usize>() -> [u8; N] {
    [0; N]
}

// A proved loop has to end, and nothing says that the input does: the turns are more than any run uses up.
fn main(rt: HostRuntime) -> io::Result<()> {
    let mut stdin = rt.stdin();
    let mut input = zeros::<INPUT>();
    let mut output = zeros::<OUTPUT>();
    let mut held = Held {
        reckoning: Reckoning::begin(),
        octets: 0,
    };
    for _ in 0..u64::MAX {
        let Some(next) = fed(&rt, &mut stdin, held, &mut input, &mut output)? else {
            return Ok(());
        };
        held = next;
    }
    Ok(())
}
