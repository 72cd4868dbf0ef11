// Tables made by adds.
use table::Table;

// A TTSI for each n.
pub(crate) fn ttsi(n: u8) -> [u8; 20] {
    let mut t = [0; 20];
    t[19] = n;
    t
}

// With the first n TTSIs, kinds 0 to 6 in turn.
pub(crate) fn filled(n: u8) -> Table {
    let mut t = Table::empty();
    for i in 0..n {
        t = t.add(i % 7, &ttsi(i), 0).map_or(t, |(_, next)| next);
    }
    t
}

// Whether an add to a table with n paths answers the number that is due.
fn is_due(n: u8) -> bool {
    filled(n)
        .add(0, &ttsi(n), 0)
        .is_ok_and(|(number, _)| number == u64::from(n))
}

// Of n adds to a table with as many paths as were added before, those that answer 0 and that number.
pub(crate) fn numbered(n: u8) -> usize {
    (0..n).filter(|i| is_due(*i)).count()
}

// With three silent closes of a path: LOCV stands.
pub(crate) fn silent(t: Table, lsp: u64) -> Table {
    let mut now = t;
    for _ in 0..3 {
        now = now.close(lsp).map_or(now, |(_, next)| next);
    }
    now
}

pub(crate) fn signalled(t: Table, lsp: u64) -> Table {
    t.server(lsp, 1).unwrap_or(t)
}
