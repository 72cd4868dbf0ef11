// Sums over the last slots of a path's two rows of counts.
ghost use Rattle.std.specs.Prelude.{◌≡◌, ◌≤◌, length};
ghost use Rattle.rules.specs.Machine.{total, last_of};
ghost use Rattle.window.specs.Sums.{sums_of};

#[derive(Clone, Copy, Debug, PartialEq, Eq)]
pub struct Sums {
    pub e: u16,
    pub u: u16,
}

// The sum of at most eleven counts.
#[tactic(auto, using(crate::proofs::Lists::total_is))]
fn sum_of(counts: &[u8]) -> u16
    requires { length counts.now ≤ 11 }
    ensures { result ≡ total counts.now }
{
    counts.iter().map(|x| u16::from(*x)).sum()
}

// The sum of the last k of a row.
#[tactic(auto, unfolding(rules::specs::Machine::last_of))]
fn last_of(row: [u8; 11], k: usize) -> u16
    ensures { result ≡ last_of k row }
{
    let first = row.len().saturating_sub(k);
    sum_of(&row[first..])
}

// The sums of the last k of two rows, the expected packets' first; of whole rows where k is past their length.
pub fn sum_last(rows: [[u8; 11]; 2], k: usize) -> Sums
    ensures { result ≡ sums_of rows k }
{
    let [e, u] = rows;
    Sums {
        e: last_of(e, k),
        u: last_of(u, k),
    }
}
