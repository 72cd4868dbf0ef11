// The kept counts of a path's packets, slot by slot, the open slot behind the closed ones.

// Slots of a row. There is no heap: the counts of all paths take half of the usual stack.
pub(crate) const ROW: usize = 8192;

#[derive(Clone, Copy)]
pub(crate) struct Row([u32; ROW]);

impl Row {
    pub(crate) const ZERO: Row = Row([0; ROW]);

    // One packet more in the slot after n; None where there is no such slot, or its count would pass 2^32 - 1.
    pub(crate) fn count(&mut self, n: usize) -> Option<()> {
        let count = self.0.get_mut(n)?;
        *count = count.checked_add(1)?;
        Some(())
    }

    // The sum over the last k slots up to n; slots before 1 count 0.
    pub(crate) fn sum(&self, n: usize, k: usize) -> u64 {
        let end = n.min(ROW);
        self.0[end.saturating_sub(k)..end]
            .iter()
            .map(|&count| u64::from(count))
            .sum()
    }
}
