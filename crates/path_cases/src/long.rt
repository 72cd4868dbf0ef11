// The long random run: 100 CV paths of 10,000 slots, each close held against the recount.
use crate::recount::Slot;
use crate::seen::Seen;
use crate::source::Source;
use crate::tally::Tally;
use crate::{paths, recount};
use std::io;
use window::Defect;

const SEED: u64 = 1711;

const RUNS: u32 = 100;

const SLOTS: usize = 10000;

// A run of packets on a new path.
fn compare(tally: &mut Tally, run: &[Slot; SLOTS]) {
    let own = paths::cv(true);
    let other = paths::cv(false);
    let mut path = paths::path(0);
    for (n, slot) in run.iter().enumerate() {
        path = paths::fed(path, &own, u32::from(slot.e));
        path = paths::fed(path, &other, u32::from(slot.u));
        let Ok((c, next)) = path.close() else {
            return;
        };
        tally.count(Seen::answered(c, next), Seen::recounted(&run[..n + 1]));
        path = next;
    }
}

pub(crate) fn claims(rt: &impl Print) -> io::Result<()> {
    let mut source = Source::new(SEED);
    let mut tally = Tally::default();
    for _ in 0..RUNS {
        let mut run = [Slot {
            e: 0,
            u: 0,
            defect: Defect::Clear,
            is_out: false,
        }; SLOTS];
        for slot in run.iter_mut() {
            (slot.e, slot.u) = source.slot();
        }
        recount::judge(&mut run);
        compare(&mut tally, &run);
    }
    tally.show(rt)
}
