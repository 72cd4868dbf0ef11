// A payload received on a path.
ghost use Rattle.std.specs.Prelude.{◌≡◌};
ghost use Rattle.payload.specs.Numbers.{dt_of};
ghost use Rattle.payload.specs.Reading.{Answer};
ghost use Rattle.lsp.specs.Steps.{same, counted_of, told_of, receive_of};
ghost use Rattle.lsp.specs.Outcomes.{state_in, answered_in, received_in};

use crate::path::{Fdi, Lsp};
use payload::{DefectType, Found, Kind};
use refusal::Refusal;
use window::State;

impl Lsp {
    // Whether the octets are the expected TTSI. By arrays, whose length is known: by a slice's `==`, a scan of any length, a packet takes
    // a quarter longer.
    #[tactic(auto, using(crate::proofs::Rows::same_is, crate::proofs::Same::other_length))]
    pub fn expects(self, t: &[u8]) -> bool
        ensures { result ≡ same t.now self.ttsi }
    {
        match t.as_array() {
            Some(t) => *t == self.ttsi,
            None => false,
        }
    }

    // The state after a CV or FFD packet: with another TTSI it is unexpected; with the expected one it is of the path's own type and rate,
    // or 6. The state alone: to hand back the whole path takes a tenth longer.
    fn counted(self, kind: u8, t: &[u8]) -> Result<State, Refusal>
        ensures { (a : Answer) → a.rate ≡ kind → answered_in a self (state_in self result) ≡ counted_of self a t.now }
    {
        let expected = self.expects(t);
        if expected && kind != self.kind {
            return Err(Refusal::OtherKind);
        }
        Ok(self.state.receive(expected))
    }

    // An FDI replaces the one before it, and stands from now until its life in slots has closed after this one.
    fn told(self, dt: DefectType, dl: u32) -> Lsp
        ensures { result ≡ told_of self (dt_of dt) dl }
    {
        let left = Kind::life(self.kind) + 1;
        let dt = dt as u16;
        Lsp {
            fdi: Fdi { left, dt, dl },
            ..self
        }
    }

    #[tactic(auto, unfolding(crate::specs::Steps::receive_of))]
    // What the reader answers of the payload, and the path afterwards: the reader's refusals, then 6. A BDI changes nothing.
    pub fn receive(self, p: &[u8]) -> Result<(Found, Lsp), Refusal>
        ensures { received_in self result ≡ receive_of self p.now }
    {
        let found = payload::read(p)?;
        let mut next = self;
        match found {
            Found::Cv => next.state = self.counted(Kind::CV, payload::ttsi_place(p))?,
            Found::Ffd { rate } => next.state = self.counted(rate, payload::ttsi_place(p))?,
            Found::Fdi { dt, dl } => next = self.told(dt, dl),
            Found::Bdi { dt: _, dl: _ } => {}
        }
        Ok((found, next))
    }
}
