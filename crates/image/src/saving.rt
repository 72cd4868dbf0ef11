// The image's length, and saving.
ghost use Rattle.std.specs.Prelude.{◌≡◌};
ghost use Rattle.refusal.specs.Numbers.{number_in};
ghost use Rattle.image.specs.Image.{length_of, save_of};

use crate::{FIELD, HEAD, head};
use refusal::Refusal;
use table::Table;

// How many octets the image of the table has.
pub fn length(t: Table) -> usize
    ensures { result ≡ length_of t }
{
    HEAD + FIELD * t.present()
}

// The image over the first octets of buf.
#[tactic(auto, using(crate::proofs::Turns::written_start, crate::proofs::Turns::written_next, crate::proofs::Turns::written_end))]
pub fn save(t: Table, buf: &mut [u8]) -> Result<(), Refusal>
    ensures { (number_in result, buf.new) ≡ save_of t buf.old }
{
    if buf.len() < length(t) {
        return Err(Refusal::Short);
    }
    let n = t.present();
    octets::copy(&head(n as u8), buf);
    for (i, l) in t.lsps[..n].iter().enumerate() {
        field::write(&mut buf[HEAD + FIELD * i..], *l)?;
    }
    Ok(())
}
