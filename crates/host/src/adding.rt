// A path more, in its place behind the last.
ghost use Rattle.std.specs.Prelude.{◌≡◌, ◌/◌, length};
ghost use Rattle.std.specs.List.{list_any};
ghost use Rattle.std.specs.Simd.{first_chunks};
ghost use Rattle.octets.specs.Parts.{part};
ghost use Rattle.refusal.specs.Numbers.{number_in};
ghost use Rattle.lsp.specs.Steps.{new_of, same};
ghost use Rattle.host.specs.Calls.{add_of};

use crate::record::{COUNT, FIELD, HEAD, opened};
use lsp::Lsp;
use payload::{Kind, is_ttsi};
use refusal::Refusal;

// Whether one of the records expects the TTSI.
fn expected_in(records: &[u8], ttsi: &[u8]) -> bool
    ensures { result ≡ list_any (λ f. same ttsi.now (part f 4 20))
        (first_chunks 79 (length records.now / 79) records.now) }
{
    let (records, _) = records.as_chunks::<FIELD>();
    records
        .iter()
        .any(|record| image::same_octets(ttsi, &record[4..24]))
}

fn path(kind: u8, ttsi: &[u8], dl: u32) -> Lsp
    requires { length ttsi.now ≡ 20 }
    ensures { result ≡ new_of kind ttsi.now dl }
{
    let mut own = [0; 20];
    own.copy_from_slice(ttsi);
    Lsp::new(kind, own, dl)
}

// Paths of a table, at most.
const MOST: u8 = 64;

#[tactic(auto, using(crate::proofs::Adds::add_refusals))]
pub(crate) fn add(image: &mut [u8], kind: u8, ttsi: &[u8], dl: u32) -> Result<(), Refusal>
    ensures { (number_in result, image.new) ≡ add_of image.old kind ttsi.now dl }
{
    let count = opened(image)?;
    if !Kind::is_kind(kind) || !is_ttsi(ttsi) {
        return Err(Refusal::Value);
    }
    let end = HEAD + FIELD * usize::from(count);
    if expected_in(&image[HEAD..end], ttsi) {
        return Err(Refusal::Taken);
    }
    if MOST <= count {
        return Err(Refusal::Full);
    }
    field::write(&mut image[end..end + FIELD], path(kind, ttsi, dl)).unwrap();
    image[COUNT] = count + 1;
    Ok(())
}
