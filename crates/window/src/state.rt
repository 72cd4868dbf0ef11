// The state, a new path's, and one packet more.
ghost use Rattle.std.specs.Prelude.{◌≡◌, ◌+◌, min};
ghost use Rattle.window.specs.View.{standing, code_of, view, state_out, packet_of};
ghost use Rattle.rules.specs.Machine.{fresh, receive, count_up};

// No more slots than these are closed.
pub const LIMIT: u64 = 1000000000000;

// The defect that stands, with its kind's code. Not an Option of the kind: the paper gives no defect a code too.
#[derive(Clone, Copy, Debug, PartialEq, Eq)]
pub enum Defect {
    Clear = 0,
    Mismatch = 0x0202,
    Mismerge = 0x0203,
    Locv = 0x0201,
    Excess = 0x0204,
}

// Not an Option of the since-slot: its None would have to say "available", which the paper names.
#[derive(Clone, Copy, Debug, PartialEq, Eq)]
pub enum Availability {
    Available,
    Unavailable { since: u64 },
}

// What a close hands out, of an unavailability or of a break: the first slot out, and the first no longer out.
#[derive(Clone, Copy, Debug, PartialEq, Eq)]
pub enum Record {
    U { from: u64, until: u64 },
    B { from: u64, until: u64 },
}

#[derive(Clone, Copy, Debug, PartialEq, Eq)]
pub struct State {
    pub closed: u64,
    // Counts of the last ten slots and the open one, oldest first: at most 12, and at most 1. `view` reads two rows.
    pub e: [u8; 11],
    pub u: [u8; 11],
    pub defect: Defect,
    // Closes that the defect has stood, at most 11.
    pub stood: u8,
    pub availability: Availability,
}

impl Defect {
    pub fn stands(self) -> bool
        ensures { result ≡ standing self }
    {
        self != Defect::Clear
    }

    // The kind's code; 0 where no defect stands.
    pub fn code(self) -> u16
        ensures { result ≡ code_of self }
    {
        self as u16
    }
}

// One more, or the cut where that is past it.
pub(crate) fn one_more(cut: u8, x: u8) -> u8
    ensures { result ≡ min cut (x + 1) }
{
    x.saturating_add(1).min(cut)
}

// One packet more in the open slot of a row.
fn count_up(cut: u8, row: [u8; 11]) -> [u8; 11]
    ensures { result ≡ count_up cut row }
{
    let mut next = row;
    next[10] = one_more(cut, row[10]);
    next
}

impl State {
    // No slot closed, no packet, no defect, available.
    pub fn fresh() -> State
        ensures { result ≡ state_out fresh }
    {
        State {
            closed: 0,
            e: [0; 11],
            u: [0; 11],
            defect: Defect::Clear,
            stood: 0,
            availability: Availability::Available,
        }
    }

    // One packet more: with the expected TTSI, or with another.
    pub fn receive(self, expected: bool) -> State
        ensures { result ≡ state_out (receive (packet_of expected) (view self)) }
    {
        if expected {
            State {
                e: count_up(12, self.e),
                ..self
            }
        } else {
            State {
                u: count_up(1, self.u),
                ..self
            }
        }
    }
}
