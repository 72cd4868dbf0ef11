// The table, an empty one, and which paths are there.
ghost use Rattle.std.specs.Prelude.{ltb, ◌≡◌};
ghost use Rattle.table.specs.Steps.{empty, present};

use lsp::Lsp;

pub const MOST: u64 = 64;

#[derive(Clone, Copy, Debug, PartialEq, Eq)]
pub struct Table {
    pub count: u64,
    // A count beside places, for the memory is fixed, and `present` has its answer to any count. Places past the last path are read
    // by no call.
    pub lsps: [Lsp; 64],
}

impl Table {
    // No path.
    pub fn empty() -> Table
        ensures { result ≡ empty }
    {
        let blank = Lsp::new(0, [0; 20], 0);
        Table {
            count: 0,
            lsps: [blank; 64],
        }
    }

    // Whether a path has the number. A count over 64, which no call makes, stands for 64 paths.
    pub(crate) fn has(self, lsp: u64) -> bool
        ensures { result ≡ ltb lsp (present self) }
    {
        lsp < self.count.min(MOST)
    }
}
