// A path more.
ghost use Rattle.std.specs.Prelude.{◌≡◌};
ghost use Rattle.std.specs.List.{list_any};
ghost use Rattle.lsp.specs.Steps.{same};
ghost use Rattle.table.specs.Steps.{any_expects, present, add_of};
ghost use Rattle.table.specs.Outcomes.{added_in};

use crate::paths::{MOST, Table};
use lsp::Lsp;
use payload::{Kind, is_ttsi};
use refusal::Refusal;

// Whether one of the paths expects the TTSI.
fn expected_in(lsps: &[Lsp], t: &[u8]) -> bool
    ensures { result ≡ list_any (λ l. same t.now l.ttsi) lsps.now }
{
    lsps.iter().any(|l| l.expects(t))
}

impl Table {
    // How many paths there are.
    pub fn present(self) -> usize
        ensures { result ≡ present self }
    {
        self.count.min(MOST) as usize
    }

    // Whether a path expects the TTSI already.
    #[tactic(auto, using(crate::proofs::Places::expected_any))]
    fn expects(self, t: &[u8]) -> bool
        ensures { result ≡ any_expects self t.now }
    {
        let n = self.present();
        expected_in(&self.lsps[..n], t)
    }

    // A path of the kind, with the expected TTSI and the local DL, and its number, the count before it: 12, 8, 7.
    #[tactic(auto, unfolding(crate::specs::Steps::add_of))]
    pub fn add(self, kind: u8, ttsi: &[u8], dl: u32) -> Result<(u64, Table), Refusal>
        ensures { added_in self result ≡ add_of self kind ttsi.now dl }
    {
        if !Kind::is_kind(kind) || !is_ttsi(ttsi) {
            return Err(Refusal::Value);
        }
        if self.expects(ttsi) {
            return Err(Refusal::Taken);
        }
        let number = self.count;
        if MOST <= number {
            return Err(Refusal::Full);
        }
        let mut own = [0; 20];
        own.copy_from_slice(ttsi);
        let mut next = self;
        next.lsps[number as usize] = Lsp::new(kind, own, dl);
        next.count = number + 1;
        Ok((number, next))
    }
}
