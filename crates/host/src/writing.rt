// What writes a payload from a path as it stands, and changes no image.
ghost use Rattle.std.specs.Prelude.{◌≡◌};
ghost use Rattle.refusal.specs.Numbers.{number_in};
ghost use Rattle.host.specs.Calls.{write_row_of};

use crate::record::find;
use refusal::Refusal;

#[tactic(auto, using(crate::proofs::Rows::row_steps))]
pub(crate) fn write_fdi(image: &[u8], lsp: u64, buf: &mut [u8]) -> Result<(), Refusal>
    ensures { (number_in result, buf.new) ≡ write_row_of 0x02 image.now lsp buf.old }
{
    find(image, lsp)?.write_fdi(buf)
}

#[tactic(auto, using(crate::proofs::Rows::row_steps))]
pub(crate) fn write_bdi(image: &[u8], lsp: u64, buf: &mut [u8]) -> Result<(), Refusal>
    ensures { (number_in result, buf.new) ≡ write_row_of 0x03 image.now lsp buf.old }
{
    find(image, lsp)?.write_bdi(buf)
}
