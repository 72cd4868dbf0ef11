// What is compared of a close: the defect, the availability, and the record; as the path answers and as the recount has it.
use crate::recount::{Slot, first};
use lsp::{Closed, Lsp};
use window::{Availability, Defect, Record};

#[derive(Clone, Copy, Debug, PartialEq, Eq)]
pub(crate) struct Seen {
    pub defect: Defect,
    pub availability: Availability,
    pub record: Option<Record>,
}

// The record of the last close, after which the path is available. Declared at m: U from m-12 until n-9. A defect that entered at e,
// the path available throughout: B from e-2 until n-2.
fn ended(past: &[Slot]) -> Option<Record> {
    let n = past.len() as u64;
    let [before @ .., now] = past else {
        return None;
    };
    let Some(latest) = before.last() else {
        return None;
    };
    if latest.is_out {
        return Some(Record::U {
            from: first(before, |slot| slot.is_out).saturating_sub(12),
            until: n.saturating_sub(9),
        });
    }
    if now.defect != Defect::Clear || latest.defect == Defect::Clear {
        return None;
    }
    let mut stood = before
        .iter()
        .rev()
        .take_while(|slot| slot.defect != Defect::Clear);
    if stood.any(|slot| slot.is_out) {
        return None;
    }
    let e = first(before, |slot| slot.defect != Defect::Clear);
    Some(Record::B {
        from: e.saturating_sub(2),
        until: n.saturating_sub(2),
    })
}

impl Seen {
    pub(crate) fn answered(c: Closed, next: Lsp) -> Seen {
        Seen {
            defect: c.defect,
            availability: next.state.availability,
            record: c.handed,
        }
    }

    // The last close as the recount has it: where it is out, since m-12.
    pub(crate) fn recounted(past: &[Slot]) -> Seen {
        let Some(now) = past.last() else {
            return Seen {
                defect: Defect::Clear,
                availability: Availability::Available,
                record: None,
            };
        };
        if now.is_out {
            let since = first(past, |slot| slot.is_out).saturating_sub(12);
            return Seen {
                defect: now.defect,
                availability: Availability::Unavailable { since },
                record: None,
            };
        }
        Seen {
            defect: now.defect,
            availability: Availability::Available,
            record: ended(past),
        }
    }
}
