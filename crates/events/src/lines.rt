// The lines, each built from its end.
ghost use Rattle.std.specs.Prelude.{◌≡◌, [], ◌∷◌, ◌++◌, length, ◌+◌, ◌≤◌};
ghost use Rattle.refusal.specs.Numbers.{number_of};
ghost use Rattle.octets.specs.Parts.{laid};
ghost use Rattle.events.specs.Lines.{decimal, record_line, refused_line, end_line, bad_line, last_line};
ghost use Rattle.events.specs.Outcomes.{line_in};

use refusal::Refusal;
use window::Record;

// The longest line: three numbers of twenty digits, a letter, three spaces and the line's end.
pub(crate) const LINE: usize = 65;

// A line's last octets, from a place to the end of the array. In fixed memory `write!` promises its text only where it
// answers `Ok`, and not that it does.
#[derive(Clone, Copy)]
pub(crate) struct Line {
    octets: [u8; LINE],
    from: usize,
    ghost within: { from ≤ 65 },
}

impl Line {
    ghost use Rattle.events.specs.Building.{text_of};

    // The line's end.
    fn end() -> Line
        ensures { (text_of result ≡ 10 ∷ []) × (result.from ≡ 64) }
    {
        Line {
            octets: [10; LINE],
            from: 64,
        }
    }

    // An octet before the text.
    fn before(self, b: u8) -> Line
        requires { 1 ≤ self.from }
        ensures { (text_of result ≡ b ∷ text_of self) × (result.from + 1 ≡ self.from) }
    {
        let mut next = self;
        next.from -= 1;
        next.octets[next.from] = b;
        next
    }

    // A number before the text.
    fn number(self, n: u64) -> Line
        requires { 20 ≤ self.from }
        ensures { (text_of result ≡ decimal n ++ text_of self) × (self.from ≤ result.from + 20) }
    {
        let mut next = self;
        let mut rest = n;
        while 10 <= rest {
            next = next.before(b'0' + (rest % 10) as u8);
            rest /= 10;
        }
        next.before(b'0' + rest as u8)
    }

    // `LSP U from until`, or with another letter.
    fn record(lsp: u8, letter: u8, from: u64, until: u64) -> Line
        ensures { text_of result ≡ record_line lsp letter from until }
    {
        Line::end()
            .number(until)
            .before(b' ')
            .number(from)
            .before(b' ')
            .before(letter)
            .before(b' ')
            .number(u64::from(lsp))
    }

    // `r index number`.
    fn refused(index: u64, refusal: Refusal) -> Line
        ensures { text_of result ≡ refused_line index (number_of refusal) }
    {
        Line::end()
            .number(u64::from(u8::from(refusal)))
            .before(b' ')
            .number(index)
            .before(b' ')
            .before(b'r')
    }

    // `end events`.
    fn ended(events: u64) -> Line
        ensures { text_of result ≡ end_line events }
    {
        Line::end()
            .number(events)
            .before(b' ')
            .before(b'd')
            .before(b'n')
            .before(b'e')
    }

    // `bad offset`.
    fn bad(offset: u64) -> Line
        ensures { text_of result ≡ bad_line offset }
    {
        Line::end()
            .number(offset)
            .before(b' ')
            .before(b'd')
            .before(b'a')
            .before(b'b')
    }

    // Over the octets lent; the place after it.
    fn put(self, out: &mut [u8], at: usize) -> usize
        requires { at + 65 ≤ length out.old }
        ensures { (result ≡ at + length (text_of self)) × (out.new ≡ laid out.old at (text_of self)) }
    {
        let end = at + (LINE - self.from);
        out[at..end].copy_from_slice(&self.octets[self.from..]);
        end
    }
}

// An event's line at the place lent, if it has one: the record that a close hands out, or the number of a refusal. The
// place after it.
pub(crate) fn say(
    out: &mut [u8],
    at: usize,
    index: u64,
    lsp: u8,
    answer: Result<Option<Record>, Refusal>,
) -> usize
    requires { at + 65 ≤ length out.old }
    ensures { (result ≡ at + length (line_in index lsp answer))
        × (out.new ≡ laid out.old at (line_in index lsp answer)) }
{
    let line = match answer {
        Ok(None) => return at,
        Ok(Some(Record::U { from, until })) => Line::record(lsp, b'U', from, until),
        Ok(Some(Record::B { from, until })) => Line::record(lsp, b'B', from, until),
        Err(refusal) => Line::refused(index, refusal),
    };
    line.put(out, at)
}

// The last line: whether the input ended with a whole field.
pub(crate) fn say_last(out: &mut [u8], whole: bool, events: u64, offset: u64) -> usize
    requires { 65 ≤ length out.old }
    ensures { (result ≡ length (last_line whole events offset))
        × (out.new ≡ laid out.old 0 (last_line whole events offset)) }
{
    let line = if whole {
        Line::ended(events)
    } else {
        Line::bad(offset)
    };
    line.put(out, 0)
}
