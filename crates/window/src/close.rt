// The close of a slot.
ghost use Rattle.std.specs.Prelude.{◌≡◌, Bool, ℕ, [], ◌∷◌};
ghost use Rattle.rules.specs.Machine as machine;
ghost use Rattle.rules.specs.Machine.{available, unavailable, shift, verdict, defect_after, stood_after, calm, turn};
ghost use Rattle.window.specs.Sums.{sums_of};
ghost use Rattle.window.specs.View.{defect_in, defect_out, view, turn_out, turn_for, turned_of};
ghost use Rattle.window.specs.Outcomes.{turned_in};
ghost use Rattle.window.specs.Steady.{meets_exit, is_steady, moved_on};

use crate::state::{Availability, Defect, LIMIT, Record, State, one_more};
use crate::sums::{Sums, sum_last};
use refusal::Refusal;

// The availability after a close, and the record that it hands out.
type Turn = (Availability, Option<Record>);

// The row one slot on: the oldest count goes, and the open slot has none.
// Written out: by `copy_within` a close takes twice as long, by `copy_from_slice` three times.
fn shifted(row: [u8; 11]) -> [u8; 11]
    ensures { result ≡ shift row }
{
    [
        row[1], row[2], row[3], row[4], row[5], row[6], row[7], row[8], row[9], row[10], 0,
    ]
}

// The first slot whose close is judged.
const FIRST: u64 = 3;

// The defect after the close of slot n, by the sums over three slots.
#[tactic(auto, unfolding(rules::specs::Machine::verdict, rules::specs::Machine::judge))]
fn judged(n: u64, three: Sums, defect: Defect) -> Defect
    ensures { result ≡ defect_out (defect_after (verdict n three.e three.u) (defect_in defect)) }
{
    if n < FIRST {
        return defect;
    }
    match (three.u, three.e) {
        (0, 0) => Defect::Locv,
        (0, 1) => defect,
        (0, 2..=4) => Defect::Clear,
        (0, _) => Defect::Excess,
        (_, 0) => Defect::Mismatch,
        _ => Defect::Mismerge,
    }
}

// Whether the sums over three slots let a defect end.
fn meets_exit(three: Sums) -> bool
    ensures { result ≡ meets_exit three.e three.u }
{
    three.u == 0 && 2 <= three.e && three.e <= 4
}

// How many closes the defect has stood, one more than before.
fn stood_after(defect: Defect, stood: u8) -> u8
    ensures { result ≡ stood_after 1 (defect_in defect) stood }
{
    if defect.stands() {
        one_more(11, stood)
    } else {
        0
    }
}

// Of the expected packets of ten slots, the least and the most that are calm.
const LEAST: u16 = 9;

const MOST: u16 = 11;

// Whether the sums over ten slots let an unavailability end.
#[tactic(auto, unfolding(rules::specs::Machine::calm))]
fn is_calm(ten: Sums) -> bool
    ensures { result ≡ calm 1 ten.e ten.u }
{
    LEAST <= ten.e && ten.e <= MOST && ten.u == 0
}

// An unavailable path at the close of slot n: its outage ends where no defect stands and the last ten slots are calm.
#[tactic(auto, unfolding(rules::specs::Machine::turn))]
fn turn_unavailable(n: u64, since: u64, after: Defect, calm: bool) -> Turn
    ensures { (d : machine.Defect) (t t' : ℕ)
        → result ≡ turn_out (turn 1 n (unavailable since) d t (defect_in after) t' calm) }
{
    if after.stands() || !calm {
        return (Availability::Unavailable { since }, None);
    }
    let until = n.saturating_sub(9);
    (
        Availability::Available,
        Some(Record::U { from: since, until }),
    )
}

// The close at which a defect that stands makes its path unavailable.
const STOOD: u8 = 11;

// An available path at the close of slot n: a defect that has stood eleven closes makes it unavailable, one that
// ends before is a break.
#[tactic(auto, unfolding(rules::specs::Machine::turn, rules::specs::Machine::long_enough))]
fn turn_available(n: u64, before: Defect, stood: u8, after: Defect, stands: u8) -> Turn
    ensures { (b : Bool)
        → result ≡ turn_out (turn 1 n available (defect_in before) stood (defect_in after) stands b) }
{
    match (before.stands(), after.stands()) {
        (_, true) if stands == STOOD => {
            let since = n.saturating_sub(12);
            (Availability::Unavailable { since }, None)
        }
        (true, false) => {
            let from = n.saturating_sub(u64::from(stood)).saturating_sub(2);
            let until = n.saturating_sub(2);
            (Availability::Available, Some(Record::B { from, until }))
        }
        _ => (Availability::Available, None),
    }
}

// On a path whose availability is judged, and on one whose isn't.
fn turn_for(cv: bool, n: u64, s: State, after: Defect, stands: u8, calm: bool) -> Turn
    ensures { result ≡ turn_out (turn_for cv n (view s) (defect_in after) stands calm) }
{
    match s.availability {
        _ if !cv => (Availability::Available, None),
        Availability::Available => turn_available(n, s.defect, s.stood, after, stands),
        Availability::Unavailable { since } => turn_unavailable(n, since, after, calm),
    }
}

impl State {
    // The sums over the last k slots.
    fn sums_of_last(self, k: usize) -> Sums
        ensures { result ≡ sums_of (self.e ∷ self.u ∷ []) k }
    {
        let State { e, u, .. } = self;
        sum_last([e, u], k)
    }

    // Whether the close of the open slot only moves the rows on: an available path with no defect, whose last three
    // slots meet the exit.
    pub fn is_steady(self) -> bool
        ensures { result ≡ is_steady self }
    {
        2 <= self.closed
            && self.closed < LIMIT
            && meets_exit(self.sums_of_last(3))
            && self.stood == 0
            && !self.defect.stands()
            && self.availability == Availability::Available
    }

    // One slot on, all else as it was; at the limit nothing moves.
    pub fn moved_on(self) -> State
        ensures { result ≡ moved_on self }
    {
        if LIMIT <= self.closed {
            return self;
        }
        State {
            closed: self.closed + 1,
            e: shifted(self.e),
            u: shifted(self.u),
            ..self
        }
    }

    // The close of the open slot, on a CV path or on one whose availability isn't judged; refused at the limit.
    #[tactic(auto, using(crate::proofs::Views::in_out))]
    pub fn close(self, cv: bool) -> Result<(State, Option<Record>), Refusal>
        ensures { turned_in self result ≡ turned_of cv self }
    {
        if LIMIT <= self.closed {
            return Err(Refusal::Limit);
        }
        let next = self.moved_on();
        let defect = judged(next.closed, self.sums_of_last(3), self.defect);
        let stood = stood_after(defect, self.stood);
        let (availability, handed) = turn_for(
            cv,
            next.closed,
            self,
            defect,
            stood,
            is_calm(self.sums_of_last(10)),
        );
        let state = State {
            defect,
            stood,
            availability,
            ..next
        };
        Ok((state, handed))
    }
}
