// Each path's own packet, octet for octet: most packets are one, and then needn't be taken apart.
ghost use Rattle.std.specs.Prelude.{◌≡◌, map};
ghost use Rattle.lsp.specs.Steps.{same};
ghost use Rattle.events.specs.Own.{own_of, is_own};
ghost use Rattle.events.specs.Outcomes.{own_in};

use lsp::Lsp;
use payload::{FunctionType, Kind, LENGTH};

// A path whose kind or TTSI breaks its rule, as no call makes one, has none.
pub(crate) type Own = Option<[u8; LENGTH]>;

#[tactic(auto, unfolding(crate::specs::Own::own_of))]
fn own_of(l: &Lsp) -> Own
    ensures { own_in result ≡ own_of l.now }
{
    let ty = if l.kind == Kind::CV {
        FunctionType::Cv
    } else {
        FunctionType::Ffd
    };
    let mut octets = [0; LENGTH];
    payload::write(ty as u8, &l.ttsi, l.kind, 0, 0, &mut octets).ok()?;
    Some(octets)
}

// Each is made in its place: by `map`, which takes all paths and hands all packets back, a run that has one event takes half as long again.
pub(crate) fn owns_of(lsps: &[Lsp; 64]) -> [Own; 64]
    ensures { map own_in result ≡ map own_of lsps.now }
{
    let mut owns = [None; 64];
    for (i, l) in lsps.iter().enumerate() {
        owns[i] = own_of(l);
    }
    owns
}

// By arrays, whose length is known: by a slice's `==`, a scan of any length, a run takes a seventh longer.
#[tactic(auto, using(lsp::proofs::Rows::same_is, lsp::proofs::Same::other_length))]
fn are(octets: &[u8; LENGTH], p: &[u8]) -> bool
    ensures { result ≡ same p.now octets.now }
{
    match p.as_array() {
        Some(p) => p == octets,
        None => false,
    }
}

// Whether the payload is this packet.
pub(crate) fn is_own(own: &Own, p: &[u8]) -> bool
    ensures { result ≡ is_own (own_in own.now) p.now }
{
    match own {
        Some(octets) => are(octets, p),
        None => false,
    }
}
