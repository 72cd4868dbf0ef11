// A stream fed in pieces: what a run did not take is held back, and the next piece goes behind it.
use arrayvec::ArrayVec;
use events::{Reckoning, Rest};
use std::io;
use std::io::Write;

// Room for a line, which is at most 65 octets.
const LINE: usize = 65;

// Room for a text.
const TEXT: usize = 1024;

// More than the longest stream's octets and events.
const TURNS: usize = 32768;

// The first n octets, or as many as there are.
// Each program has its own: in a crate of theirs each call would need a promise and two wrong answers, and be longer for it.
fn first(s: &[u8], n: usize) -> &[u8] {
    &s[..n.min(s.len())]
}

// The text of a stream in pieces of a size, with the lines of each run in a buffer.
fn fed(s: &[u8], size: usize, lines: &mut [u8]) -> io::Result<ArrayVec<u8, TEXT>> {
    let mut text = ArrayVec::new();
    let mut reckoning = Reckoning::begin();
    let mut rest = s;
    let mut seen = 0;
    for _ in 0..TURNS {
        let ran = reckoning.run(first(rest, seen), lines);
        reckoning = ran.next;
        text.write_all(first(lines, ran.text))?;
        rest = &rest[ran.taken.min(rest.len())..];
        seen = seen.saturating_sub(ran.taken);
        match ran.rest {
            None => {}
            Some(Rest::Cut) if seen < rest.len() => seen = seen.saturating_add(size),
            Some(end) => {
                let whole = end == Rest::Cut && rest.is_empty();
                let mut line = [0; LINE];
                let n = reckoning.finish(whole, &mut line);
                text.write_all(first(&line, n))?;
                return Ok(text);
            }
        }
    }
    Ok(text)
}

// Whether that is the text; where not, it is printed.
fn prints(
    rt: &impl Print,
    s: &[u8],
    size: usize,
    lines: &mut [u8],
    text: &str,
) -> io::Result<bool> {
    let printed = fed(s, size, lines)?;
    let is_text = printed.as_slice() == text.as_bytes();
    if !is_text {
        println!(rt; " in pieces of {size}:")?;
        rt.write_all(printed.as_slice())?;
    }
    Ok(is_text)
}

// In one piece, octet by octet, and in pieces of 7 with room for one line.
pub(crate) fn is_text(rt: &impl Print, s: &[u8], text: &str) -> io::Result<bool> {
    let mut many = [0; 64 * LINE];
    let mut one = [0; LINE];
    let whole = prints(rt, s, s.len(), &mut many, text)?;
    let octets = prints(rt, s, 1, &mut many, text)?;
    let sevens = prints(rt, s, 7, &mut one, text)?;
    Ok(whole && octets && sevens)
}
