// Restoring, and whether lent octets begin with an image.
ghost use Rattle.std.specs.Prelude.{◌≡◌, ◌↔◌, IsTrue, MatchOption, true, false, length, drop};
ghost use Rattle.std.specs.Simd.{first_chunks};
ghost use Rattle.octets.specs.Parts.{octet_at};
ghost use Rattle.image.specs.Image.{head_of, is_image, image_in, count_in, restore_of};
ghost use Rattle.image.specs.Outcomes.{restored_in};

use crate::fields::{are_fields, paths_of};
use crate::{FIELD, Field, HEAD, head};
use refusal::Refusal;
use table::Table;

// Paths of a table, at most.
const MOST: usize = 64;

// Whether the octets are the head of as many paths as the last of them says: there is one version.
fn is_head(first: [u8; HEAD]) -> bool
    ensures { IsTrue result ↔ (first ≡ head_of (octet_at first 4)) }
{
    first == head(first[4])
}

// The fields of the image that the octets begin with.
#[tactic(auto, using(crate::proofs::Prefix::other_head, crate::proofs::Prefix::too_short, crate::proofs::Prefix::few_fields, crate::proofs::Prefix::fields_are, crate::proofs::Prefix::too_many, crate::proofs::Prefix::fields_decide))]
fn fields_in(s: &[u8]) -> Option<&[Field]>
    ensures { MatchOption result (is_image (image_in s.now) ≡ false)
        (λ fields. (is_image (image_in s.now) ≡ true) × (length fields.now ≡ count_in s.now) × (fields.now ≡ first_chunks 79 (count_in s.now) (drop 5 s.now))) }
{
    let (first, rest) = s.split_first_chunk()?;
    if !is_head(*first) {
        return None;
    }
    let (fields, _) = rest.as_chunks();
    let fields = fields.get(..usize::from(first[4]))?;
    if MOST < fields.len() || !are_fields(fields) {
        return None;
    }
    Some(fields)
}

// Whether the octets up to the last field that the header counts are an image.
pub fn begins(s: &[u8]) -> bool
    ensures { result ≡ is_image (image_in s.now) }
{
    fields_in(s).is_some()
}

// The table whose image the octets are.
#[tactic(auto, using(crate::proofs::Prefix::begun, crate::proofs::Prefix::not_begun, crate::proofs::Prefix::wrong_length, crate::proofs::Prefix::accepted))]
pub fn restore(im: &[u8]) -> Result<Table, Refusal>
    ensures { restored_in result ≡ restore_of im.now }
{
    let fields = fields_in(im).ok_or(Refusal::Broken)?;
    if im.len() != HEAD + FIELD * fields.len() {
        return Err(Refusal::Broken);
    }
    Ok(Table {
        count: fields.len() as u64,
        lsps: paths_of(fields),
    })
}
