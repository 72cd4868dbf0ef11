// A run over the octets at hand: as many events as are whole there and as the lent buffer has room for the lines of.
ghost use Rattle.std.specs.Prelude.{◌≡◌};
ghost use Rattle.events.specs.Outcomes.{ran_in};
ghost use Rattle.events.specs.Printed.{begin, run_of, finish_of};

pub use crate::framing::Rest;
use crate::framing::frame;
use crate::lines::{LINE, say, say_last};
use crate::paths::Paths;
use table::Table;

// Where the program is: the paths, and how many events and octets of whole fields lie behind.
#[derive(Clone, Copy, Debug, PartialEq, Eq)]
pub struct Reckoning {
    pub table: Table,
    pub events: u64,
    pub offset: u64,
}

#[derive(Clone, Copy, Debug, PartialEq, Eq)]
pub struct Ran {
    pub next: Reckoning,
    // Octets taken from the input, and octets of lines in the lent buffer.
    pub taken: usize,
    pub text: usize,
    // What stands where the run ended; None where perhaps an event more does.
    pub rest: Option<Rest>,
}

impl Reckoning {
    // At the start of the input.
    pub fn begin() -> Reckoning
        ensures { result ≡ begin }
    {
        Reckoning {
            table: Table::empty(),
            events: 0,
            offset: 0,
        }
    }

    // At most one event for each 65 octets lent, in their order: the paths afterwards, the lines in the lent octets,
    // and what follows.
    pub fn run(self, s: &[u8], out: &mut [u8]) -> Ran
        ensures { (ran_in result, out.new) ≡ run_of self s.now out.old }
    {
        let mut paths = Paths::of(self.table);
        let mut events = self.events;
        let mut offset = self.offset;
        let mut taken = 0;
        let mut text = 0;
        let mut rest = None;
        for _ in 0..out.len() / LINE {
            let size = match frame(&s[taken..]) {
                Ok(size) => size,
                Err(end) => {
                    rest = Some(end);
                    break;
                }
            };
            let field = &s[taken..taken + size];
            taken += size;
            events = events.saturating_add(1);
            offset = offset.saturating_add(size as u64);
            let answer = paths.event(field);
            text = say(out, text, events, field[3], answer);
        }
        let next = Reckoning {
            table: paths.table,
            events,
            offset,
        };
        Ran {
            next,
            taken,
            text,
            rest,
        }
    }

    #[tactic(auto, unfolding(crate::specs::Printed::finish_of))]
    // The last line: `end` where the input ended with a whole field, else `bad`. How many octets of it are in the lent
    // buffer, none where it has no room.
    pub fn finish(self, whole: bool, out: &mut [u8]) -> usize
        ensures { (result, out.new) ≡ finish_of self whole out.old }
    {
        if out.len() < LINE {
            return 0;
        }
        say_last(out, whole, self.events, self.offset)
    }
}
