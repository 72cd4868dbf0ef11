// Whether a path obeys the rules of the image, as its fields stand.
ghost use Rattle.std.specs.Prelude.{◌≡◌, eqb, leb, take};
ghost use Rattle.std.specs.List.{list_all};
ghost use Rattle.lsp.specs.Sound.{never_were, is_row, is_code, is_stood, is_availability, is_fdi, sound};

use crate::path::{Fdi, Lsp};
use payload::{DefectType, Kind, is_ttsi};
use window::{Availability, Defect, LIMIT};

// No count is past the cut.
fn counts_hold(cut: u8, row: &[u8]) -> bool
    ensures { result ≡ list_all (λ x. leb x cut) row.now }
{
    row.iter().all(|&x| x <= cut)
}

// A slot that never was has no count.
fn never_were_empty(closed: u64, row: &[u8]) -> bool
    ensures { result ≡ list_all (λ x. eqb x 0) (take (never_were closed) row.now) }
{
    let n = 10u64.saturating_sub(closed) as usize;
    row.iter().take(n).all(|&x| x == 0)
}

// Counts of a row.
const ROW: usize = 11;

#[tactic(auto, using(crate::proofs::Rows::within_all, crate::proofs::Rows::zeros_all))]
// Eleven counts, none past the cut and none in a slot that never was.
pub fn row_holds(cut: u8, closed: u64, row: &[u8]) -> bool
    ensures { result ≡ is_row cut closed row.now }
{
    row.len() == ROW && counts_hold(cut, row) && never_were_empty(closed, row)
}

// A defect stands exactly when it has stood at some close.
pub fn code_holds(defect: Defect, stood: u8) -> bool
    ensures { result ≡ is_code defect stood }
{
    if defect.stands() {
        1 <= stood
    } else {
        stood == 0
    }
}

// Before slot 3 closes nothing stands.
pub fn stood_holds(closed: u64, stood: u8) -> bool
    ensures { result ≡ is_stood closed stood }
{
    stood <= 11 && u64::from(stood) <= closed.saturating_sub(2)
}

// A CV path whose defect has stood eleven closes is unavailable; no FFD path is.
pub fn availability_holds(kind: u8, closed: u64, stood: u8, availability: Availability) -> bool
    ensures { result ≡ is_availability kind closed stood availability }
{
    match availability {
        Availability::Available => 1 <= kind || stood <= 10,
        Availability::Unavailable { since } => {
            kind == 0 && 1 <= since && since <= closed.saturating_sub(12)
        }
    }
}

impl Fdi {
    // On a path of the kind: no more closes left than an FDI received now has; nothing of one that is gone, and a defect
    // type of one that stands.
    pub fn holds(self, kind: u8) -> bool
        ensures { result ≡ is_fdi kind self }
    {
        self.left <= Kind::life(kind) + 1
            && match self.left {
                0 => self.dt == 0 && self.dl == 0,
                _ => DefectType::is_defect(self.dt),
            }
    }
}

impl Lsp {
    #[tactic(auto, unfolding(crate::specs::Sound::sound))]
    // Whether restoring may accept the path. That its TTSI differs from the others' is for the table to see.
    pub fn is_sound(self) -> bool
        ensures { result ≡ sound self }
    {
        let state = self.state;
        Kind::is_kind(self.kind)
            && is_ttsi(&self.ttsi)
            && state.closed <= LIMIT
            && row_holds(12, state.closed, &state.e)
            && row_holds(1, state.closed, &state.u)
            && code_holds(state.defect, state.stood)
            && stood_holds(state.closed, state.stood)
            && availability_holds(self.kind, state.closed, state.stood, state.availability)
            && self.fdi.holds(self.kind)
    }
}
