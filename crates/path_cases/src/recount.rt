// The paper's rules over the slots of a run, each by looking back from the slot it is about. Nothing here is shared with the path's own
// state: it keeps every count as it came.
use window::Defect;

// The packets that came in a slot, with the expected TTSI and with others, and what the recount says of its close.
#[derive(Clone, Copy)]
pub(crate) struct Slot {
    pub e: u16,
    pub u: u16,
    pub defect: Defect,
    pub is_out: bool,
}

// What the sums over three slots say of a slot, where it is an entry or an exit.
enum Said {
    Entry(Defect),
    Exit,
}

// The last k slots; there is no slot before the first.
fn last(past: &[Slot], k: usize) -> &[Slot] {
    &past[past.len().saturating_sub(k)..]
}

// The sum over the last k slots, which does not come near 2^32.
fn sum<F: Fn(&Slot) -> u16>(past: &[Slot], k: usize, of: F) -> u32
    requires { F.IsAlwaysCallable of }
{
    last(past, k)
        .iter()
        .fold(0u32, |n, slot| n.wrapping_add(u32::from(of(slot))))
}

fn says(past: &[Slot]) -> Option<Said> {
    if past.len() < 3 {
        return None;
    }
    match (sum(past, 3, |slot| slot.e), sum(past, 3, |slot| slot.u)) {
        (0, 0) => Some(Said::Entry(Defect::Locv)),
        (1, 0) => None,
        (2..=4, 0) => Some(Said::Exit),
        (_, 0) => Some(Said::Entry(Defect::Excess)),
        (0, _) => Some(Said::Entry(Defect::Mismatch)),
        _ => Some(Said::Entry(Defect::Mismerge)),
    }
}

// The defect that stands after the last slot: that of the latest entry, unless an exit came after it. A slot is told by the slots up to
// it, so the parts of the run are gone back over, here and below, and not its slots.
fn defect(past: &[Slot]) -> Defect {
    for n in (1..=past.len()).rev() {
        match says(&past[..n]) {
            Some(Said::Entry(defect)) => return defect,
            Some(Said::Exit) => return Defect::Clear,
            None => {}
        }
    }
    Defect::Clear
}

// Whether the defect stood at the last eleven closes.
fn stood_eleven(past: &[Slot]) -> bool {
    11 <= past.len()
        && last(past, 11)
            .iter()
            .all(|slot| slot.defect != Defect::Clear)
}

// Whether the last close had no defect, 9 to 11 expected packets over ten slots, and no other.
fn clears(past: &[Slot]) -> bool {
    if last(past, 1)
        .iter()
        .any(|slot| slot.defect != Defect::Clear)
    {
        return false;
    }
    let e = sum(past, 10, |slot| slot.e);
    9 <= e && e <= 11 && sum(past, 10, |slot| slot.u) == 0
}

// Whether at some close the defect had stood eleven, and no close after it clears.
fn is_out(past: &[Slot]) -> bool {
    for n in (1..=past.len()).rev() {
        if stood_eleven(&past[..n]) {
            return true;
        }
        if clears(&past[..n]) {
            return false;
        }
    }
    false
}

// What the recount says of each close. By index, since a slot is judged by those of the run that lie before it, and written among them.
pub(crate) fn judge(run: &mut [Slot]) {
    for n in 0..run.len() {
        let defect = defect(&run[..n + 1]);
        run[n].defect = defect;
    }
    for n in 0..run.len() {
        let is_out = is_out(&run[..n + 1]);
        run[n].is_out = is_out;
    }
}

// The number of the first of the last closes for which it holds without a gap.
pub(crate) fn first<F: Fn(&Slot) -> bool>(past: &[Slot], is: F) -> u64
    requires { F.IsAlwaysCallable is }
{
    let many = past.iter().rev().take_while(|slot| is(slot)).count();
    (past.len().saturating_sub(many) as u64).saturating_add(1)
}
