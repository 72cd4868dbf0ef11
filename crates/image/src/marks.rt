// TTSIs told apart without comparing each with all: a mark for each, and only those whose mark was set before are compared.
ghost use Rattle.std.specs.Prelude.{◌≡◌};
ghost use Rattle.field.specs.Field.{ttsi_in};
ghost use Rattle.lsp.specs.Steps.{same};
ghost use Rattle.image.specs.Image.{mark_of};

use crate::Field;

// One of 501 marks for the TTSI of each field.
pub(crate) fn mark(field: &Field) -> usize
    ensures { result ≡ mark_of (ttsi_in field.now) }
{
    let high = octets::number(&field[8..16]) % 251;
    let low = octets::number(&field[16..24]) % 251;
    (high + low) as usize
}

#[tactic(auto, using(lsp::proofs::Rows::same_is, crate::proofs::Compared::lasts_differ))]
// The last octets first: TTSIs of one network differ there.
pub fn same_octets(a: &[u8], b: &[u8]) -> bool
    ensures { result ≡ same a.now b.now }
{
    a.last() == b.last() && a == b
}
