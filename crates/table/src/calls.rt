// The calls on one path of a table: 1 where no path has the number, then as the path answers.
ghost use Rattle.std.specs.Prelude.{◌≡◌, ◌<◌, length, MatchResult};
ghost use Rattle.refusal.specs.declared.Refusal.TheVariants.{NoPath};
ghost use Rattle.refusal.specs.Numbers.{number_in};
ghost use Rattle.table.specs.Steps.{IsThere, IsNot, put, receive_of, close_of, server_of, write_row_of};
ghost use Rattle.table.specs.Outcomes.{received_in, closed_in, signalled_in};

use crate::paths::Table;
use lsp::{Closed, Lsp};
use payload::Found;
use refusal::Refusal;

impl Table {
    // Where the path of the number lies.
    fn place(self, lsp: u64) -> Result<usize, Refusal>
        ensures { MatchResult result (λ at. (at ≡ lsp) × IsThere self lsp) (λ r. (r ≡ NoPath) × IsNot self lsp) }
    {
        if !self.has(lsp) {
            return Err(Refusal::NoPath);
        }
        Ok(lsp as usize)
    }

    // With another path in the place of one.
    fn with(self, at: usize, path: Lsp) -> Table
        requires { at < length self.lsps }
        ensures { result ≡ put self at path }
    {
        let mut next = self;
        next.lsps[at] = path;
        next
    }

    // A payload on a path.
    #[tactic(auto, using(crate::proofs::Places::put_back), unfolding(crate::specs::Steps::receive_of))]
    pub fn receive(self, lsp: u64, p: &[u8]) -> Result<(Found, Table), Refusal>
        ensures { received_in self result ≡ receive_of self lsp p.now }
    {
        let at = self.place(lsp)?;
        let (found, path) = self.lsps[at].receive(p)?;
        Ok((found, self.with(at, path)))
    }

    // The close of a path's open slot.
    #[tactic(auto, using(crate::proofs::Places::put_back), unfolding(crate::specs::Steps::close_of))]
    pub fn close(self, lsp: u64) -> Result<(Closed, Table), Refusal>
        ensures { closed_in self result ≡ close_of self lsp }
    {
        let at = self.place(lsp)?;
        let (closed, path) = self.lsps[at].close()?;
        Ok((closed, self.with(at, path)))
    }

    // The server signal of a path: on (1) or off (0).
    #[tactic(auto, using(crate::proofs::Places::put_back), unfolding(crate::specs::Steps::server_of))]
    pub fn server(self, lsp: u64, value: u8) -> Result<Table, Refusal>
        ensures { signalled_in self result ≡ server_of self lsp value }
    {
        let at = self.place(lsp)?;
        let path = self.lsps[at].server(value)?;
        Ok(self.with(at, path))
    }

    // The FDI of a path as it stands, in the first 44 octets lent. A call for each type, as a path's own.
    #[tactic(auto, unfolding(crate::specs::Steps::write_row_of))]
    pub fn write_fdi(self, lsp: u64, buf: &mut [u8]) -> Result<(), Refusal>
        ensures { (number_in result, buf.new) ≡ write_row_of 0x02 self lsp buf.old }
    {
        let at = self.place(lsp)?;
        self.lsps[at].write_fdi(buf)
    }

    // The BDI, likewise.
    #[tactic(auto, unfolding(crate::specs::Steps::write_row_of))]
    pub fn write_bdi(self, lsp: u64, buf: &mut [u8]) -> Result<(), Refusal>
        ensures { (number_in result, buf.new) ≡ write_row_of 0x03 self lsp buf.old }
    {
        let at = self.place(lsp)?;
        self.lsps[at].write_bdi(buf)
    }
}
