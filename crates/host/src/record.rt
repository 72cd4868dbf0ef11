// One record of an image, taken out by value and put back where it lay.
ghost use Rattle.std.specs.Prelude.{◌≡◌, IfOk};
ghost use Rattle.refusal.specs.Numbers.{number_in};
ghost use Rattle.image.specs.Image.{count_in};
ghost use Rattle.host.specs.Calls.{opened_of, found_of};
ghost use Rattle.host.specs.Records.{path_in, with_path};

use lsp::Lsp;
use refusal::Refusal;

// Octets of a buffer for the image, at least; of the image's head, in which the last is the count; of a path's field.
pub(crate) const IMAGE: usize = 5061;

pub(crate) const HEAD: usize = 5;

pub(crate) const COUNT: usize = 4;

pub(crate) const FIELD: usize = 79;

// How many paths the image has: Short where the buffer is too short for one, Broken where it begins with none.
pub(crate) fn opened(image: &[u8]) -> Result<u8, Refusal>
    ensures number { number_in result ≡ opened_of image.now }
    ensures count { IfOk result (λ n. n ≡ count_in image.now) }
{
    if image.len() < IMAGE {
        return Err(Refusal::Short);
    }
    if !image::begins(image) {
        return Err(Refusal::Broken);
    }
    Ok(image[COUNT])
}

// The path of the number. Not a handle that holds the image until `put`: the calls that write a payload have it by `&`.
#[tactic(auto, using(crate::proofs::Called::records_fit, crate::proofs::Called::path_here))]
pub(crate) fn find(image: &[u8], lsp: u64) -> Result<Lsp, Refusal>
    ensures number { number_in result ≡ found_of image.now lsp }
    ensures path { IfOk result (λ l. l ≡ path_in image.now lsp) }
{
    if u64::from(opened(image)?) <= lsp {
        return Err(Refusal::NoPath);
    }
    let at = HEAD + FIELD * lsp as usize;
    Ok(field::path_of(&image[at..at + FIELD]))
}

// Another path in the place of one that was found.
pub(crate) fn put(image: &mut [u8], lsp: u64, l: Lsp)
    requires { found_of image.old lsp ≡ 0 }
    ensures { image.new ≡ with_path image.old lsp l }
{
    let at = HEAD + FIELD * lsp as usize;
    field::write(&mut image[at..at + FIELD], l).unwrap();
}
